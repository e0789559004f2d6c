// What the definitions of the answers give the bytes of each file.
ghost use Rattle.std.specs.Prelude.{◌≡◌, ℕ, List};
ghost use Rattle.nagini_cli.specs.Answers.{Answers};
ghost use Rattle.nagini_cli.specs.RunAnswers.{RunAnswers};

use py_front::{a_spelled_module_is_small, a_text_has_one_answer, each_text_has_an_answer};
use schedule_runner::a_text_reads_or_has_a_bad_line;

/// There is an answer to the bytes of each file, and no other.
pub fn a_file_has_one_answer()
    ensures one { (bytes : List ℕ) (s t : ℕ) (x y : List ℕ) →
        Answers bytes s x → Answers bytes t y → (s ≡ t) × (x ≡ y) }
    ensures some { (bytes : List ℕ) →
        (status : ℕ) × (text : List ℕ) × Answers bytes status text }
{
    a_text_has_one_answer();
    each_text_has_an_answer();
    a_spelled_module_is_small();
}

/// There is an answer to the bytes of each file of a module with each file of a schedule, and no other.
pub fn a_run_has_one_answer()
    ensures one { (bytes script : List ℕ) (s t : ℕ) (x y : List ℕ) →
        RunAnswers bytes script s x → RunAnswers bytes script t y → (s ≡ t) × (x ≡ y) }
    ensures some { (bytes script : List ℕ) →
        (status : ℕ) × (text : List ℕ) × RunAnswers bytes script status text }
{
    a_text_has_one_answer();
    each_text_has_an_answer();
    a_spelled_module_is_small();
    a_text_reads_or_has_a_bad_line();
}
