// Stacks.
ghost use Rattle.std.specs.Prelude.{◌≡◌, ◌<◌, ◌≤◌, [], ◌∷◌, drop, length, slice_get, slice_set, Some, OnOk, OnErr, MatchOption};
ghost use Rattle.std.specs.Option.{option_copied};

use py_base::OutOfMemory;
use std::alloc::Global;
use std::marker::Model;

/// A stack, which contracts see as the list of its members, the topmost first.
#[derive(Debug, Drop)]
pub struct Stack<T> {
    members: Vec<T>,
}

impl<T> Model for Stack<T> {
    ghost use Rattle.std.specs.Prelude.{List};
    ghost use Rattle.std.specs.Prelude.{reverse};
    ghost use Rattle.std.specs.Coded.{coded_list};

    ghost Value = { List T };

    ghost coded = { coded_list T.code };

    ghost view = { λ s. reverse s.members.items };
}

impl<T> Stack<T> {
    /// The empty stack.
    pub fn new(alloc: Global) -> Stack<T>
        ensures { result ≡ [] }
    {
        Stack {
            members: Vec::new(alloc),
        }
    }

    /// How many members there are.
    #[tactic(auto, using(crate::proofs::Stacks::length_reverse))]
    pub fn len(&self) -> usize
        ensures { result ≡ length self.now }
    {
        self.members.len()
    }

    /// Takes the topmost member away.
    pub fn pop(&mut self) -> Option<T>
        ensures { MatchOption result ((self.old ≡ []) × (self.new ≡ [])) (λ top. self.old ≡ top ∷ self.new) }
    {
        self.members.pop()
    }
}

impl<T> Stack<T> {
    /// The member below so many others, if there is one.
    #[tactic(auto, using(crate::proofs::Stacks::get_reverse, crate::proofs::Stacks::past_reverse))]
    pub fn get(&self, depth: usize) -> Option<&T>
        ensures { option_copied result ≡ slice_get self.now depth }
    {
        let count = self.members.len();
        if depth < count {
            self.members.get(count - 1 - depth)
        } else {
            None
        }
    }

    /// Puts a member in the place of the one below so many others, which it gives.
    #[tactic(auto, using(crate::proofs::Stacks::length_reverse, crate::proofs::Stacks::get_reverse, crate::proofs::Stacks::set_reverse))]
    pub fn exchange(&mut self, depth: usize, member: T) -> T
        requires { depth < length self.old }
        ensures was { slice_get self.old depth ≡ Some result }
        ensures is { self.new ≡ slice_set self.old depth member }
    {
        let at = self.members.len() - 1 - depth;
        std::mem::replace(&mut self.members[at], member)
    }
}

impl<T: Drop> Stack<T> {
    /// Drops so many members from the top.
    #[tactic(auto, using(crate::proofs::Stacks::drop_reverse))]
    pub fn drop_top(&mut self, count: usize)
        ensures { self.new ≡ drop count self.old }
    {
        self.members
            .truncate(self.members.len().saturating_sub(count));
    }

    /// Puts a member in the place of the topmost ones, so many. Without memory nothing is changed.
    #[tactic(auto, using(crate::proofs::Stacks::nothing_dropped, crate::proofs::Stacks::all_dropped, crate::proofs::Stacks::set_dropped))]
    pub fn put(&mut self, count: usize, member: T) -> Result<(), OutOfMemory>
        ensures ok { OnOk result (self.new ≡ member ∷ drop count self.old) }
        ensures err { OnErr result (self.new ≡ self.old) }
    {
        let there = self.len();
        if count == 0 || there == 0 {
            return self.push(member);
        }
        let dropped = if count < there { count } else { there };
        self.drop_top(dropped - 1);
        self.exchange(0, member);
        Ok(())
    }

    /// Puts a member on top. Without memory nothing is changed.
    pub fn push(&mut self, member: T) -> Result<(), OutOfMemory>
        ensures ok { OnOk result (self.new ≡ member ∷ self.old) }
        ensures err { OnErr result (self.new ≡ self.old) }
    {
        self.members.push(member)?;
        Ok(())
    }
}
