// Lists whose members change in their place.
ghost use Rattle.std.specs.Prelude.{◌≡◌, ◌<◌, [], ◌∷◌, ◌++◌, Some, length, slice_get, slice_set, OnOk, OnErr, MatchOption};
ghost use Rattle.std.specs.Option.{option_copied};

use py_base::OutOfMemory;
use std::alloc::Global;
use std::marker::Model;

/// A list whose members can be exchanged in their place.
#[derive(Debug, Drop)]
pub struct Slots<T> {
    members: Vec<T>,
}

impl<T> Model for Slots<T> {
    ghost use Rattle.std.specs.Prelude.{List};
    ghost use Rattle.std.specs.Coded.{coded_list};

    ghost Value = { List T };

    ghost coded = { coded_list T.code };

    ghost view = { λ s. s.members.items };
}

impl<T> Slots<T> {
    /// No member.
    pub fn new(alloc: Global) -> Slots<T>
        ensures { result ≡ [] }
    {
        Slots {
            members: Vec::new(alloc),
        }
    }

    /// The members in turn.
    pub fn as_slice(&self) -> &[T]
        ensures { result.now ≡ self.now }
    {
        self.members.as_slice()
    }

    /// The member at a place, if there is one.
    pub fn get(&self, at: usize) -> Option<&T>
        ensures { option_copied result ≡ slice_get self.now at }
    {
        self.members.get(at)
    }

    /// Takes the last member away.
    pub fn pop(&mut self) -> Option<T>
        ensures { MatchOption result ((self.old ≡ []) × (self.new ≡ [])) (λ last. self.old ≡ self.new ++ last ∷ []) }
    {
        self.members.pop()
    }
}

impl<T> Slots<T> {
    /// Puts a member in the place of another one, which it gives.
    pub fn exchange(&mut self, at: usize, member: T) -> T
        requires { at < length self.old }
        ensures was { slice_get self.old at ≡ Some result }
        ensures is { self.new ≡ slice_set self.old at member }
    {
        std::mem::replace(&mut self.members[at], member)
    }
}

impl<T: Drop> Slots<T> {
    /// Puts a member at the end. Without memory nothing is changed.
    pub fn push(&mut self, member: T) -> Result<(), OutOfMemory>
        ensures ok { OnOk result (self.new ≡ self.old ++ member ∷ []) }
        ensures err { OnErr result (self.new ≡ self.old) }
    {
        self.members.push(member)?;
        Ok(())
    }
}
