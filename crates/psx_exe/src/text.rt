//! The text of a program: what is placed in memory.
ghost use Rattle.std.specs.Prelude.{◌≡◌, ◌↔◌, [], ℕ, List, IfOk, IsTrue, length};

use psx_base::Memory;
use std::alloc::Global;
use std::marker::Model;

/// The bytes that a program places in memory. Contracts see them as a list.
#[derive(Drop)]
pub struct Text {
    bytes: Vec<u8>,
}

impl Model for Text {
    ghost Value = { List ℕ };

    ghost view = { λ t. t.bytes.items };
}

impl Text {
    /// A text of these bytes.
    pub fn from_slice(alloc: Global, bytes: &[u8]) -> Result<Text, Memory>
        ensures { IfOk result (λ text. text ≡ bytes.now) }
    {
        match Vec::from_slice(alloc, bytes) {
            Ok(bytes) => Ok(Text { bytes }),
            Err(_) => Err(Memory),
        }
    }

    /// Lends the bytes.
    pub fn as_slice(&self) -> &[u8]
        ensures { result.now ≡ self.now }
    {
        self.bytes.as_slice()
    }

    /// How many bytes it has.
    pub fn len(&self) -> usize
        ensures { result ≡ length self.now }
    {
        self.bytes.len()
    }

    /// Whether it has none.
    pub fn is_empty(&self) -> bool
        ensures { IsTrue result ↔ (self.now ≡ []) }
    {
        self.bytes.is_empty()
    }
}
