// Laws of the answers.
ghost use Rattle.std.specs.Prelude.{◌≡◌, List, Result, Err};
ghost use Rattle.py_tokens.specs.declared.Token.{Token};
ghost use Rattle.raw_syntax.specs.declared.Raw.{Raw};
ghost use Rattle.py_parser.specs.declared.fault.ParseFault.{ParseFault};
ghost use Rattle.py_parser.specs.declared.fault.ParseFault.TheVariants.{OutOfMemory};
ghost use Rattle.py_parser.specs.Reading.{IsEnded};
ghost use Rattle.py_parser.specs.Parsing.{IsAnswer};

use py_grammar::{one_tree, the_machine_reads_the_grammar};

/// A list of tokens has one answer: the tree that it spells, or one fault at one place. The answer that memory ran out
/// says nothing of the tokens.
pub fn a_list_of_tokens_has_one_answer()
    ensures { (ts : List Token) (a b : Result Raw ParseFault) → IsAnswer ts a → IsAnswer ts b → ¬ (a ≡ Err OutOfMemory) → ¬ (b ≡ Err OutOfMemory) → a ≡ b }
{
    one_tree();
}

/// Each list of tokens that ends with the end of a text has an answer other than that memory ran out, so that it has
/// exactly one.
pub fn each_list_of_tokens_has_an_answer()
    ensures { (ts : List Token) → IsEnded ts → (r : Result Raw ParseFault) × IsAnswer ts r × ¬ (r ≡ Err OutOfMemory) }
{
    the_machine_reads_the_grammar();
}
