// What the definition says of some small modules.
ghost use Rattle.std.specs.Prelude.{◌++◌};
ghost use Rattle.py_grammar.specs.Spelling.{Spells, IsFirstBad};
ghost use Rattle.py_grammar.specs.SmallModules.{at, head, difference, difference_tree, condition, condition_tree, wrong};

/// Differences group to the left, and a product binds more tightly.
pub fn operators_group_to_the_left()
    ensures { Spells (head ++ difference) difference_tree }
{}

/// `not` binds less tightly than a comparison and more tightly than `and`, and `is not` is one operator.
pub fn is_not_is_one_operator()
    ensures { Spells (head ++ condition) condition_tree }
{}

/// A comma alone is no list of arguments.
pub fn a_comma_alone_is_refused()
    ensures { IsFirstBad (head ++ wrong) (at 1 24) }
{}
