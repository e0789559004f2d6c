// The open widths of lines.
ghost use Rattle.std.specs.Prelude.{◌≡◌, [], ◌∷◌, OnOk, MatchOption};
ghost use Rattle.py_lexer.specs.Walk.{newest, is_new_below};

use std::alloc::{AllocError, Global};
use std::marker::Model;

/// The open widths, which contracts see as a list, the newest first.
#[derive(Debug, Drop)]
pub struct Widths {
    members: Vec<u32>,
}

impl Model for Widths {
    ghost use Rattle.std.specs.Prelude.{ℕ, List, reverse};

    ghost Value = { List ℕ };

    ghost view = { λ w. reverse w.members.items };
}

impl Widths {
    /// No open width.
    pub fn new(alloc: Global) -> Widths
        ensures { result ≡ [] }
    {
        Widths {
            members: Vec::new(alloc),
        }
    }

    /// The newest width, or 0 if none is open.
    pub fn newest(&self) -> u32
        ensures { result ≡ newest self.now }
    {
        match self.members.last() {
            Some(width) => *width,
            None => 0,
        }
    }

    /// Whether the width is smaller than the newest, and isn't open.
    #[tactic(auto, using(crate::proofs::OpenWidths::any_reverse))]
    pub fn is_new_below(&self, width: u32) -> bool
        ensures { result ≡ is_new_below width self.now }
    {
        width < self.newest() && !self.members.contains(&width)
    }

    /// Opens a width.
    pub fn push(&mut self, width: u32) -> Result<(), AllocError>
        ensures { OnOk result (self.new ≡ width ∷ self.old) }
    {
        self.members.push(width)?;
        Ok(())
    }

    /// Closes the newest width.
    pub fn pop(&mut self) -> Option<u32>
        ensures { MatchOption result ((self.old ≡ []) × (self.new ≡ [])) (λ width. self.old ≡ width ∷ self.new) }
    {
        self.members.pop()
    }
}
