// The names of contracts.
ghost use Rattle.std.specs.Prelude.{◌≡◌};
ghost use Rattle.type_names.specs.Names.{heading_named, instance_named, term_named, duty_named, contract_named};

use crate::meaning::Contract;

fn heading_named(word: &[u8]) -> Option<Contract>
    ensures { result ≡ heading_named word.now }
{
    if word == b"Requires".as_slice() {
        return Some(Contract::Requires);
    }
    if word == b"Ensures".as_slice() {
        return Some(Contract::Ensures);
    }
    if word == b"Exsures".as_slice() {
        return Some(Contract::Exsures);
    }
    if word == b"Invariant".as_slice() {
        return Some(Contract::Invariant);
    }
    if word == b"Assert".as_slice() {
        return Some(Contract::Assert);
    }
    None
}

fn instance_named(word: &[u8]) -> Option<Contract>
    ensures { result ≡ instance_named word.now }
{
    if word == b"Fold".as_slice() {
        return Some(Contract::Fold);
    }
    if word == b"Unfold".as_slice() {
        return Some(Contract::Unfold);
    }
    if word == b"Unfolding".as_slice() {
        return Some(Contract::Unfolding);
    }
    None
}

fn term_named(word: &[u8]) -> Option<Contract>
    ensures { result ≡ term_named word.now }
{
    if word == b"Acc".as_slice() {
        return Some(Contract::Acc);
    }
    if word == b"Implies".as_slice() {
        return Some(Contract::Implies);
    }
    if word == b"Old".as_slice() {
        return Some(Contract::Old);
    }
    if word == b"Result".as_slice() {
        return Some(Contract::Result);
    }
    None
}

fn duty_named(word: &[u8]) -> Option<Contract>
    ensures { result ≡ duty_named word.now }
{
    if word == b"Level".as_slice() {
        return Some(Contract::Level);
    }
    if word == b"MustTerminate".as_slice() {
        return Some(Contract::MustTerminate);
    }
    if word == b"MustRelease".as_slice() {
        return Some(Contract::MustRelease);
    }
    if word == b"MayJoin".as_slice() {
        return Some(Contract::MayJoin);
    }
    if word == b"WaitLevel".as_slice() {
        return Some(Contract::WaitLevel);
    }
    None
}

/// The contract of this name.
pub fn contract_named(word: &[u8]) -> Option<Contract>
    ensures { result ≡ contract_named word.now }
{
    if let Some(contract) = heading_named(word) {
        return Some(contract);
    }
    if let Some(contract) = instance_named(word) {
        return Some(contract);
    }
    if let Some(contract) = term_named(word) {
        return Some(contract);
    }
    duty_named(word)
}
