// Laws of the front.
ghost use Rattle.std.specs.Prelude.{◌≡◌, ℕ, List, Result};
ghost use Rattle.py_syntax.specs.declared.Module.{Module};
ghost use Rattle.py_front.specs.declared.fault.FrontFault.{FrontFault};
ghost use Rattle.py_front.specs.Answers.{IsFront};

use contract_kinds::breaches_have_one_first_breach;
use py_lexer::each_text_has_tokens_or_a_fault;
use py_parser::laws::{a_list_of_tokens_has_one_answer, each_list_of_tokens_has_an_answer};
use py_tokens::{a_text_has_one_first_fault, a_text_has_one_token_list};
use py_types::faults_have_one_first_fault;

/// A text has one answer at most.
pub fn a_text_has_one_answer()
    ensures { (text : List ℕ) (a b : Result Module FrontFault) → IsFront text a → IsFront text b → a ≡ b }
{
    a_list_of_tokens_has_one_answer();
    a_text_has_one_first_fault();
    a_text_has_one_token_list();
    faults_have_one_first_fault();
    breaches_have_one_first_breach();
}

/// Each text has an answer.
pub fn each_text_has_an_answer()
    ensures { (text : List ℕ) → (answer : Result Module FrontFault) × IsFront text answer }
{
    each_text_has_tokens_or_a_fault();
    each_list_of_tokens_has_an_answer();
    faults_have_one_first_fault();
    breaches_have_one_first_breach();
}
