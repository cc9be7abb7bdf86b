//! What is assembled: bytes, each at its address.
use std::alloc::{AllocError, Global};
use std::marker::Model;

/// A name as its bytes. Contracts see it as their list.
#[derive(Drop, Debug)]
pub struct Name {
    bytes: Vec<u8>,
}

impl Model for Name {
    ghost use Rattle.std.specs.Prelude.{ℕ, List};

    ghost Value = { List ℕ };

    ghost view = { λ n. n.bytes.items };
}

impl Name {
    ghost use Rattle.std.specs.Prelude.{◌≡◌, IfOk};

    /// Lends the bytes.
    pub fn as_slice(&self) -> &[u8]
        ensures { result.now ≡ self.now }
    {
        self.bytes.as_slice()
    }

    /// A name of these bytes.
    pub(crate) fn of(alloc: Global, bytes: &[u8]) -> Result<Name, AllocError>
        ensures { IfOk result (λ n. n ≡ bytes.now) }
    {
        let bytes = Vec::from_slice(alloc, bytes)?;
        Ok(Name { bytes })
    }
}

/// Bytes in order. Contracts see them as their list.
#[derive(Drop, Debug)]
pub struct Bytes {
    bytes: Vec<u8>,
}

impl Model for Bytes {
    ghost use Rattle.std.specs.Prelude.{ℕ, List};

    ghost Value = { List ℕ };

    ghost view = { λ b. b.bytes.items };
}

impl Bytes {
    ghost use Rattle.std.specs.Prelude.{◌≡◌};

    /// Lends the bytes.
    pub fn as_slice(&self) -> &[u8]
        ensures { result.now ≡ self.now }
    {
        self.bytes.as_slice()
    }

    /// These bytes.
    pub(crate) fn of(bytes: Vec<u8>) -> Bytes
        ensures { result ≡ bytes.items }
    {
        Bytes { bytes }
    }
}

/// Bytes that stand one behind the other from an address on, modulo 2^32.
#[derive(Drop, Debug)]
pub struct Part {
    pub at: u32,
    pub bytes: Bytes,
}

/// Parts in the order in which they were placed. Contracts see them as their list.
#[derive(Drop, Debug)]
pub struct Parts {
    parts: Vec<Part>,
}

impl Model for Parts {
    ghost use Rattle.std.specs.Prelude.{List};
    ghost use Rattle.psx_asm.specs.declared.object.Part.{Part};

    ghost Value = { List Part };

    ghost view = { λ p. p.parts.items };
}

impl Parts {
    ghost use Rattle.std.specs.Prelude.{◌≡◌};

    /// Lends the parts.
    pub fn as_slice(&self) -> &[Part]
        ensures { result.now ≡ self.now }
    {
        self.parts.as_slice()
    }

    /// These parts.
    pub(crate) fn of(parts: Vec<Part>) -> Parts
        ensures { result ≡ parts.items }
    {
        Parts { parts }
    }
}

/// What a text gives: its bytes, and the address of the label `start`.
#[derive(Drop, Debug)]
pub struct Object {
    pub parts: Parts,
    pub start: Option<u32>,
}
