// Laws that hold of every module and every state.
ghost use Rattle.std.specs.Prelude.{◌≡◌, ◌↔◌, ◌⊎◌, ℕ, ◌≤◌, Bool, true, false, List, [], ◌++◌, Option};
ghost use Rattle.py_base.specs.declared.Place.{Place};
ghost use Rattle.py_syntax.specs.declared.Value.{Value};
ghost use Rattle.py_syntax.specs.declared.Assertion.{Assertion};
ghost use Rattle.py_syntax.specs.declared.Module.{Module};
ghost use Rattle.machine_model.specs.declared.state.State.{State};
ghost use Rattle.machine_model.specs.Results.{Got, Width};
ghost use Rattle.machine_model.specs.Evaluation.{Scene};
ghost use Rattle.machine_model.specs.Reading.{Miss, Opened, opens_within, room, read_assertions};
ghost use Rattle.machine_model.specs.Frames.{After};
ghost use Rattle.machine_model.specs.Steps.{Went, TooLarge, step, whole, after};
ghost use Rattle.machine_laws.specs.Growth.{StateGrows, Extends};
ghost use Rattle.machine_laws.specs.Widths.{Computed, StepComputes};
ghost use Rattle.machine_laws.specs.Depths.{holds_at, Holds, Takes, StaysAmongObjects, IsOver, BodiesNameReferences};

/// Each step computes a list of numbers that the width has no part in, and stops at the first of
/// them that the width doesn't let through. Over whole numbers none is too large.
pub fn a_width_changes_nothing_else()
    ensures exact { (m : Module) (s : State) (t : ℕ) → (numbers : List Computed) × StepComputes m s t numbers }
    ensures all_fit { (m : Module) (s : State) (t : ℕ) (p : Place) → step whole m s t ≡ TooLarge p → ⊥ }
{}

/// An instance that holds at a depth holds at each greater one.
pub fn more_depth_keeps_what_holds()
    ensures { (fits : Width) (m : Module) (s : Scene) (k n q : ℕ) (vs : List Value) → k ≤ n →
        holds_at fits m s k q vs ≡ Got true → holds_at fits m s n q vs ≡ Got true }
{}

/// The reading by a path of open instances says that an instance holds where it holds at some depth:
/// always where it may open as many instances within one another as the depth, and among the objects
/// of a heap with the room that it is given.
pub fn reading_finds_what_holds()
    ensures sound { (fits : Width) (m : Module) (s : Scene) (n : ℕ) (path : List Opened) (q : ℕ) (vs : List Value) →
        opens_within fits m s n path q vs ≡ Got true → holds_at fits m s n q vs ≡ Got true }
    ensures deep_enough { (fits : Width) (m : Module) (s : Scene) (k n q : ℕ) (vs : List Value) → k ≤ n →
        holds_at fits m s k q vs ≡ Got true → opens_within fits m s n [] q vs ≡ Got true }
    ensures within_room { (fits : Width) (m : Module) (s : Scene) (objects q : ℕ) (vs : List Value) →
        StaysAmongObjects fits m s objects → Takes m objects q vs →
        (opens_within fits m s (room m objects) [] q vs ≡ Got true) ↔ Holds fits m s q vs }
{}

/// A step within any width loses no object and no thread, no object changes its class or its lock's
/// object and level, and no thread comes back that has ended. A run with more steps goes on from the
/// run so far, in its state and in all that it has shown.
pub fn runs_only_grow()
    ensures steps { (fits : Width) (m : Module) (s : State) (t : ℕ) (a : After) (u : State) →
        step fits m s t ≡ Went a u → StateGrows s u }
    ensures runs { (m : Module) (list more : List ℕ) → Extends (after m list) (after m (list ++ more)) }
{}

/// In a scene over so many objects the reading stays among them, where the bodies of predicates name
/// instances with references alone.
pub fn a_scene_over_objects_stays_among_them()
    ensures { (fits : Width) (m : Module) (s : Scene) (objects : ℕ) →
        IsOver objects s → BodiesNameReferences fits m s objects → StaysAmongObjects fits m s objects }
{}

/// Over whole numbers each reading has an answer: an instance holds or doesn't, and of a contract
/// there is a first atom that doesn't hold, or none.
pub fn readings_have_answers()
    ensures instances { (m : Module) (s : Scene) (n : ℕ) (path : List Opened) (q : ℕ) (vs : List Value) →
        (opens_within whole m s n path q vs ≡ Got true) ⊎ (opens_within whole m s n path q vs ≡ Got false) }
    ensures contracts { (m : Module) (objects : ℕ) (held : Option Value → Bool) (s : Scene) (all : List Assertion) →
        (miss : Option Miss) × (read_assertions whole m objects held s all ≡ Got miss) }
{}
