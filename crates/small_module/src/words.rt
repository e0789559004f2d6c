// Names, and the numbers of locals.
ghost use Rattle.std.specs.Prelude.{◌≡◌, ◌≤◌, ◌<◌, ◌+◌, length, bytes_eq, position, IfSome, OnOk};
ghost use Rattle.std.specs.List.{list_any, position_or_len};
ghost use Rattle.class_table.specs.Names.{is_built_in};
ghost use Rattle.small_module.specs.SmallTree.{is_reserved, is_known, local_number, with_name};

use py_base::{OutOfMemory, Text};
use std::alloc::Global;

fn is_among(words: &[&[u8]], bytes: &[u8]) -> bool
    ensures { result ≡ list_any (λ word. bytes_eq bytes.now word.now) words.now }
{
    words.iter().any(|word| bytes == *word)
}

// Whether the name is one of Python's or of the contracts.
fn is_built_in(name: &[u8]) -> bool
    ensures { result ≡ is_built_in name.now }
{
    is_among(
        &[
            b"int",
            b"bool",
            b"super",
            b"Lock",
            b"Thread",
            b"Optional",
            b"Exception",
            b"print",
            b"Requires",
            b"Ensures",
            b"Exsures",
            b"Invariant",
            b"Assert",
            b"Fold",
            b"Unfold",
            b"Unfolding",
            b"Predicate",
            b"Pure",
            b"Acc",
            b"Implies",
            b"Old",
            b"Result",
            b"Level",
            b"MustTerminate",
            b"MustRelease",
            b"MayJoin",
            b"WaitLevel",
        ],
        name,
    )
}

/// Whether the name is built in, or isn't built yet as the name of a local.
pub fn is_reserved(name: &[u8]) -> bool
    ensures { result ≡ is_reserved name.now }
{
    if is_built_in(name) {
        return true;
    }
    name == b"main".as_slice() || name == b"self".as_slice()
}

/// Whether the name is among these.
pub fn is_known(names: &[Text], name: &[u8]) -> bool
    ensures { result ≡ is_known names.now name.now }
{
    names.iter().any(|known| name == known.bytes())
}

fn position_of(names: &[Text], name: &[u8]) -> Option<usize>
    ensures at { result ≡ position (bytes_eq name.now) names.now }
    ensures within { IfSome result (λ at. at < length names.now) }
{
    names.iter().position(|known| name == known.bytes())
}

// The place of the name among these, or behind the last.
#[tactic(auto, using(crate::proofs::Positions::position_is))]
fn place_among(names: &[Text], name: &[u8]) -> usize
    ensures at { result ≡ position_or_len (bytes_eq name.now) names.now }
    ensures within { result ≤ length names.now }
{
    position_of(names, name).unwrap_or(names.len())
}

/// The number of a local, which is that of the next one where the name is new.
pub fn local_number(names: &[Text], name: &[u8]) -> u32
    requires { length names.now ≤ 60 }
    ensures { result ≡ local_number names.now name.now }
{
    place_among(names, name) as u32
}

/// Adds the name where it is new.
pub fn add_name(alloc: Global, names: &mut Vec<Text>, name: &[u8]) -> Result<(), OutOfMemory>
    ensures names { OnOk result (names.new.items ≡ with_name names.old.items name.now) }
    ensures more { OnOk result (length names.new.items ≤ length names.old.items + 1) }
{
    if is_known(names, name) {
        return Ok(());
    }
    names.push(Text::of(name.to_vec(alloc)?))?;
    Ok(())
}
