// Texts, which are owned lists of bytes.
ghost use Rattle.std.specs.Prelude.{◌≡◌, ℕ, List, IfOk};

use crate::memory::OutOfMemory;
use std::alloc::Global;
use std::marker::Model;

/// A text, which contracts see as its list of bytes.
#[derive(Debug, Drop)]
pub struct Text {
    bytes: Vec<u8>,
}

impl Model for Text {
    ghost Value = { List ℕ };

    ghost view = { λ t. t.bytes.items };
}

impl Text {
    /// The text of these bytes.
    pub fn of(bytes: Vec<u8>) -> Text
        ensures { result ≡ bytes.items }
    {
        Text { bytes }
    }

    /// The bytes of the text.
    pub fn bytes(&self) -> &[u8]
        ensures { result.now ≡ self.now }
    {
        &self.bytes
    }

    /// An equal text.
    pub fn copy(&self, alloc: Global) -> Result<Text, OutOfMemory>
        ensures { IfOk result (λ text. text ≡ self.now) }
    {
        Ok(Text {
            bytes: self.bytes.to_vec(alloc)?,
        })
    }
}
