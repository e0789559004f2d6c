// The texts of answers.
ghost use Rattle.std.specs.Prelude.{◌≡◌, ◌++◌, flat_map, codes, decimal, IfOk, OnOk, string_bytes};
ghost use Rattle.condition_text.specs.Replies.{nodes_of, number_text, reference_text, flag_text, valuation_text, wide_text, proof_text, proof_word, told};

use crate::nodes::count_nodes;
use cond_prover::Proof;
use lin_rows::WidePoint;
use proof_checker::{Derivation, Valuation};
use py_base::OutOfMemory;
use std::alloc::{AllocError, Global};

fn write_numbers(
    alloc: Global,
    text: &mut String,
    numbers: &[(u32, i128)],
) -> Result<(), AllocError>
    ensures { OnOk result (string_bytes text.new ≡ string_bytes text.old ++ flat_map number_text numbers.now) }
{
    for number in numbers {
        let (n, value) = *number;
        let next = format!(in alloc; " x{n}={value}")?;
        text.push_str(&next)?;
    }
    Ok(())
}

fn write_references(
    alloc: Global,
    text: &mut String,
    references: &[(u32, u32)],
) -> Result<(), AllocError>
    ensures { OnOk result (string_bytes text.new ≡ string_bytes text.old ++ flat_map reference_text references.now) }
{
    for reference in references {
        let (n, value) = *reference;
        let next = format!(in alloc; " r{n}={value}")?;
        text.push_str(&next)?;
    }
    Ok(())
}

fn flag_text(alloc: Global, n: u32, held: bool) -> Result<String, AllocError>
    ensures { IfOk result (λ text. string_bytes text ≡ flag_text (n, held)) }
{
    if held {
        format!(in alloc; " flag{n}=true")
    } else {
        format!(in alloc; " flag{n}=false")
    }
}

fn write_flags(alloc: Global, text: &mut String, flags: &[(u32, bool)]) -> Result<(), AllocError>
    ensures { OnOk result (string_bytes text.new ≡ string_bytes text.old ++ flat_map flag_text flags.now) }
{
    for flag in flags {
        let (n, held) = *flag;
        let next = flag_text(alloc, n, held)?;
        text.push_str(&next)?;
    }
    Ok(())
}

fn valuation_text(alloc: Global, v: &Valuation) -> Result<String, AllocError>
    ensures { IfOk result (λ text. string_bytes text ≡ valuation_text v.now) }
{
    let unit = v.q;
    let mut text = format!(in alloc; "fails unit {unit}")?;
    write_numbers(alloc, &mut text, v.nums.as_slice())?;
    write_references(alloc, &mut text, v.refs.as_slice())?;
    write_flags(alloc, &mut text, v.flags.as_slice())?;
    Ok(text)
}

fn wide_text(alloc: Global, w: &WidePoint) -> Result<String, AllocError>
    ensures { IfOk result (λ text. string_bytes text ≡ wide_text w.now) }
{
    match w {
        WidePoint::Pair(_, _, variable) => format!(in alloc; "wide pair {variable}"),
        WidePoint::Bound(_, _, variable) => format!(in alloc; "wide bound {variable}"),
        WidePoint::Form(place) => {
            let number = place.col;
            format!(in alloc; "wide form {number}")
        }
    }
}

fn derivation_text(alloc: Global, d: &Derivation) -> Result<String, OutOfMemory>
    ensures { IfOk result (λ text. string_bytes text ≡ codes "proved " ++ decimal (nodes_of d.now)) }
{
    match count_nodes(d) {
        Some(nodes) => Ok(format!(in alloc; "proved {nodes}")?),
        None => Err(OutOfMemory),
    }
}

fn proof_text(alloc: Global, p: &Proof) -> Result<String, OutOfMemory>
    ensures { IfOk result (λ text. string_bytes text ≡ proof_text p.now) }
{
    match p {
        Proof::Proved(d) => derivation_text(alloc, d),
        Proof::Fails(v) => Ok(valuation_text(alloc, v)?),
        Proof::Wide(w) => Ok(wide_text(alloc, w)?),
    }
}

fn proof_word(p: &Proof) -> &'static str
    ensures { result.now ≡ proof_word p.now }
{
    match p {
        Proof::Proved(_) => "proved",
        Proof::Fails(_) => "fails",
        Proof::Wide(_) => "wide",
    }
}

/// What is told of an answer.
pub fn told(alloc: Global, short: bool, p: &Proof) -> Result<String, OutOfMemory>
    ensures { IfOk result (λ text. string_bytes text ≡ told short p.now) }
{
    if short {
        Ok(String::from_str(alloc, proof_word(p))?)
    } else {
        proof_text(alloc, p)
    }
}
