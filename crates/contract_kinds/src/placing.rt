// Where contracts may stand.
ghost use Rattle.std.specs.Prelude.{◌≡◌, is_some};
ghost use Rattle.contract_kinds.specs.Kinds.{unless, inner, conjunct_level, conjunct, measured_level, second_conjunct, guarded_level, consequent, bound_level, lower, is_measured, asserted, first_then, contract_spot, argument_spot, clause_of, clause_of_atom, clause_of_measure, clause_of_bound, holds, is_statement, is_method_head, is_loop_head, has_permissions, old_refusal, gives_result, may_terminate, is_precondition, is_ending, may_join, may_release, duty_refusal, refusal};

use crate::breach::Rule;
use crate::contract::Contract;
use crate::spot::{Clause, Level, Spot};

fn unless(fits: bool, rule: Rule) -> Option<Rule>
    ensures { result ≡ unless fits rule }
{
    if fits {
        return None;
    }
    Some(rule)
}

/// Where the parts of an expression stand.
pub fn inner(at: Spot) -> Spot
    ensures { result ≡ inner at }
{
    match at {
        Spot::Inside(clause, _) => Spot::Inside(clause, Level::Term),
        _ => Spot::Value,
    }
}

fn conjunct_level(level: Level) -> Level
    ensures { result ≡ conjunct_level level }
{
    match level {
        Level::Top(measured) => Level::Top(measured),
        Level::Guarded => Level::Guarded,
        _ => Level::Term,
    }
}

/// Where the first part of an `and` stands.
pub fn conjunct(at: Spot) -> Spot
    ensures { result ≡ conjunct at }
{
    match at {
        Spot::Inside(clause, level) => Spot::Inside(clause, conjunct_level(level)),
        _ => Spot::Value,
    }
}

fn measured_level(level: Level, binds: bool) -> Level
    ensures { result ≡ measured_level level binds }
{
    match level {
        Level::Top(measured) => Level::Top(measured || binds),
        Level::Guarded => Level::Guarded,
        _ => Level::Term,
    }
}

/// Where the second part of an `and` stands, whose first part has a measure or not.
pub fn second_conjunct(at: Spot, binds: bool) -> Spot
    ensures { result ≡ second_conjunct at binds }
{
    match at {
        Spot::Inside(clause, level) => Spot::Inside(clause, measured_level(level, binds)),
        _ => Spot::Value,
    }
}

fn guarded_level(level: Level) -> Level
    ensures { result ≡ guarded_level level }
{
    match level {
        Level::Top(_) => Level::Guarded,
        Level::Guarded => Level::Guarded,
        _ => Level::Term,
    }
}

fn consequent(at: Spot) -> Spot
    ensures { result ≡ consequent at }
{
    match at {
        Spot::Inside(clause, level) => Spot::Inside(clause, guarded_level(level)),
        _ => Spot::Value,
    }
}

fn bound_level(level: Level) -> Level
    ensures { result ≡ bound_level level }
{
    match level {
        Level::Top(_) => Level::Bound,
        _ => Level::Term,
    }
}

/// Where the left side of a single `<` stands.
pub fn lower(at: Spot) -> Spot
    ensures { result ≡ lower at }
{
    match at {
        Spot::Inside(clause, level) => Spot::Inside(clause, bound_level(level)),
        _ => Spot::Value,
    }
}

fn is_measured(at: Spot) -> bool
    ensures { result ≡ is_measured at }
{
    match at {
        Spot::MethodHead(measured) => measured,
        Spot::LoopHead(measured) => measured,
        _ => false,
    }
}

fn asserted(clause: Clause) -> Spot
    ensures { result ≡ asserted clause }
{
    Spot::Inside(clause, Level::Top(false))
}

fn first_then(number: usize, first: Spot, other: Spot) -> Spot
    ensures { result ≡ first_then number first other }
{
    if number == 0 {
        return first;
    }
    other
}

fn contract_spot(gives: bool, contract: Contract, at: Spot, number: usize) -> Spot
    ensures { result ≡ contract_spot gives contract at number }
{
    match contract {
        Contract::Requires => Spot::Inside(Clause::Precondition, Level::Top(is_measured(at))),
        Contract::Ensures => asserted(Clause::Postcondition(gives)),
        Contract::Exsures => first_then(
            number,
            Spot::Inside(Clause::ExceptionalPostcondition, Level::Term),
            asserted(Clause::ExceptionalPostcondition),
        ),
        Contract::Invariant => Spot::Inside(Clause::Invariant, Level::Top(is_measured(at))),
        Contract::Assert => asserted(Clause::Assertion),
        Contract::Fold => Spot::Inside(Clause::Instance, Level::Term),
        Contract::Unfold => Spot::Inside(Clause::Instance, Level::Term),
        Contract::Implies => first_then(number, inner(at), consequent(at)),
        _ => inner(at),
    }
}

/// Where the argument of this number of a call stands, in a method that gives a value or not.
pub fn argument_spot(gives: bool, contract: Option<Contract>, at: Spot, number: usize) -> Spot
    ensures { result ≡ argument_spot gives contract at number }
{
    match contract {
        Some(found) => contract_spot(gives, found, at, number),
        None => inner(at),
    }
}

fn clause_of(at: Spot) -> Option<Clause>
    ensures { result ≡ clause_of at }
{
    match at {
        Spot::Inside(clause, _) => Some(clause),
        _ => None,
    }
}

fn clause_of_atom(at: Spot) -> Option<Clause>
    ensures { result ≡ clause_of_atom at }
{
    match at {
        Spot::Inside(clause, level) => match level {
            Level::Top(_) => Some(clause),
            Level::Guarded => Some(clause),
            _ => None,
        },
        _ => None,
    }
}

fn clause_of_measure(at: Spot) -> Option<Clause>
    ensures { result ≡ clause_of_measure at }
{
    match at {
        Spot::Inside(clause, level) => match level {
            Level::Top(measured) => {
                if measured {
                    return None;
                }
                Some(clause)
            }
            _ => None,
        },
        _ => None,
    }
}

fn clause_of_bound(at: Spot) -> Option<Clause>
    ensures { result ≡ clause_of_bound at }
{
    match at {
        Spot::Inside(clause, level) => match level {
            Level::Bound => Some(clause),
            _ => None,
        },
        _ => None,
    }
}

/// Whether it is a statement.
pub fn is_statement(at: Spot) -> bool
    ensures { result ≡ is_statement at }
{
    match at {
        Spot::MethodHead(_) => true,
        Spot::LoopHead(_) => true,
        Spot::Alone => true,
        _ => false,
    }
}

fn is_method_head(at: Spot) -> bool
    ensures { result ≡ is_method_head at }
{
    match at {
        Spot::MethodHead(_) => true,
        _ => false,
    }
}

fn is_loop_head(at: Spot) -> bool
    ensures { result ≡ is_loop_head at }
{
    match at {
        Spot::LoopHead(_) => true,
        _ => false,
    }
}

fn in_contract(at: Spot) -> bool
    ensures { result ≡ is_some (clause_of at) }
{
    match at {
        Spot::Inside(_, _) => true,
        _ => false,
    }
}

fn has_permissions(at: Option<Clause>) -> bool
    ensures { result ≡ holds has_permissions at }
{
    match at {
        None => false,
        Some(clause) => match clause {
            Clause::Pure => false,
            Clause::Instance => false,
            _ => true,
        },
    }
}

fn old_refusal(at: Option<Clause>) -> Option<Rule>
    ensures { result ≡ old_refusal at }
{
    match at {
        None => Some(Rule::ContractPlace),
        Some(clause) => match clause {
            Clause::Precondition => Some(Rule::OldInPre),
            Clause::Predicate => Some(Rule::OldInPre),
            Clause::Pure => Some(Rule::ContractPlace),
            Clause::Instance => Some(Rule::ContractPlace),
            _ => None,
        },
    }
}

fn gives_result(at: Option<Clause>) -> bool
    ensures { result ≡ holds gives_result at }
{
    match at {
        None => false,
        Some(clause) => match clause {
            Clause::Postcondition(gives) => gives,
            _ => false,
        },
    }
}

fn may_terminate(at: Option<Clause>) -> bool
    ensures { result ≡ holds may_terminate at }
{
    match at {
        None => false,
        Some(clause) => match clause {
            Clause::Precondition => true,
            Clause::Invariant => true,
            _ => false,
        },
    }
}

fn is_precondition(at: Option<Clause>) -> bool
    ensures { result ≡ holds is_precondition at }
{
    match at {
        None => false,
        Some(clause) => match clause {
            Clause::Precondition => true,
            _ => false,
        },
    }
}

fn is_ending(at: Option<Clause>) -> bool
    ensures { result ≡ holds is_ending at }
{
    match at {
        None => false,
        Some(clause) => match clause {
            Clause::Postcondition(_) => true,
            Clause::ExceptionalPostcondition => true,
            Clause::Invariant => true,
            _ => false,
        },
    }
}

fn may_join(at: Option<Clause>) -> bool
    ensures { result ≡ holds may_join at }
{
    is_precondition(at) || is_ending(at)
}

fn may_release(count: usize, at: Option<Clause>) -> bool
    ensures { result ≡ holds (may_release count) at }
{
    if count == 2 {
        return is_precondition(at);
    }
    if count == 1 {
        return is_ending(at);
    }
    false
}

fn duty_refusal(within: bool, fits: bool) -> Option<Rule>
    ensures { result ≡ duty_refusal within fits }
{
    if within {
        return unless(fits, Rule::DutyPlace);
    }
    Some(Rule::ContractPlace)
}

/// The rule that refuses a contract with so many arguments where it stands.
pub fn refusal(contract: Contract, count: usize, at: Spot) -> Option<Rule>
    ensures { result ≡ refusal contract count at }
{
    let place = Rule::ContractPlace;
    let within = in_contract(at);
    match contract {
        Contract::Requires => unless(is_method_head(at), place),
        Contract::Ensures => unless(is_method_head(at), place),
        Contract::Exsures => unless(is_method_head(at), place),
        Contract::Invariant => unless(is_loop_head(at), place),
        Contract::Assert => unless(is_statement(at), place),
        Contract::Fold => unless(is_statement(at), place),
        Contract::Unfold => unless(is_statement(at), place),
        Contract::Acc => unless(has_permissions(clause_of_atom(at)), place),
        Contract::Implies => unless(within, place),
        Contract::Level => unless(within, place),
        Contract::Unfolding => unless(within, place),
        Contract::Old => old_refusal(clause_of(at)),
        Contract::Result => unless(gives_result(clause_of(at)), place),
        Contract::MustTerminate => duty_refusal(within, may_terminate(clause_of_measure(at))),
        Contract::MustRelease => duty_refusal(within, may_release(count, clause_of_atom(at))),
        Contract::MayJoin => duty_refusal(within, may_join(clause_of_atom(at))),
        Contract::WaitLevel => duty_refusal(within, is_precondition(clause_of_bound(at))),
    }
}
