// The texts of answers.
ghost use Rattle.std.specs.Prelude.{◌≡◌, IfOk, string_bytes};
ghost use Rattle.type_text.specs.Replies.{fault_text, breach_text, verdict_text};

use crate::verdict::Verdict;
use contract_kinds::{Breach, Rule};
use std::alloc::{AllocError, Global};
use type_base::{Fault, Rank};

fn fault_text(alloc: Global, fault: Fault) -> Result<String, AllocError>
    ensures { IfOk result (λ text. string_bytes text ≡ fault_text fault) }
{
    let line = fault.place.line;
    let column = fault.place.col;
    match fault.rank {
        Rank::Mistyped(rule) => format!(in alloc; "Mistyped {line}:{column} rule {rule}"),
        Rank::BoolAsInt => format!(in alloc; "BoolAsInt {line}:{column}"),
        Rank::Unassigned => format!(in alloc; "Unassigned {line}:{column}"),
    }
}

fn breach_text(alloc: Global, breach: Breach) -> Result<String, AllocError>
    ensures { IfOk result (λ text. string_bytes text ≡ breach_text breach) }
{
    let line = breach.place.line;
    let column = breach.place.col;
    match breach.rule {
        Rule::ContractPlace => format!(in alloc; "ContractPlace {line}:{column}"),
        Rule::OldInPre => format!(in alloc; "OldInPre {line}:{column}"),
        Rule::DutyPlace => format!(in alloc; "DutyPlace {line}:{column}"),
        Rule::BadFraction => format!(in alloc; "BadFraction {line}:{column}"),
        Rule::RecursivePure => format!(in alloc; "RecursivePure {line}:{column}"),
        Rule::BadTarget => format!(in alloc; "BadTarget {line}:{column}"),
        Rule::UnknownPredicate => format!(in alloc; "UnknownPredicate {line}:{column}"),
    }
}

/// The text of what is found.
pub fn verdict_text(alloc: Global, verdict: Verdict) -> Result<String, AllocError>
    ensures { IfOk result (λ text. string_bytes text ≡ verdict_text verdict) }
{
    match verdict {
        Verdict::NotTyped => String::from_str(alloc, "not typed"),
        Verdict::Typed => String::from_str(alloc, "ok"),
        Verdict::Faulty(fault) => fault_text(alloc, fault),
        Verdict::Broken(breach) => breach_text(alloc, breach),
    }
}
