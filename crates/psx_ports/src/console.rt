//! The bytes that wait for the program, in a ring of fixed room.
ghost use Rattle.std.specs.Prelude.{◌≡◌, ◌<◌, ◌≤◌, [], ◌∷◌, ◌++◌, drop, length, IfOk};
ghost use Rattle.psx_ports.specs.History.{status_of, first_of};

use circular_buffer::HeapCircularBuffer;
use psx_base::Memory;
use std::alloc::Global;
use std::marker::Model;

/// The most bytes that may wait.
pub const ROOM: usize = 65_536;

/// The bytes that wait, first to be taken first. Contracts see it as their list.
#[derive(Drop)]
pub struct Console {
    bytes: HeapCircularBuffer<u8>,
}

impl Model for Console {
    ghost use Rattle.std.specs.Prelude.{◌≡◌, ℕ, List};

    ghost Value = { List ℕ };

    ghost view = { λ c. c.bytes.items };

    ghost invariant = { λ c. c.bytes.capacity ≡ 65536 };
}

impl Console {
    /// No byte waits. An Err is want of memory for the ring.
    pub fn new(alloc: Global) -> Result<Console, Memory>
        ensures { IfOk result (λ c. c ≡ []) }
    {
        match HeapCircularBuffer::with_capacity(alloc, ROOM) {
            Ok(bytes) => Ok(Console { bytes }),
            Err(_) => Err(Memory),
        }
    }

    /// How many bytes wait.
    pub fn len(&self) -> usize
        ensures count { result ≡ length self.now }
        ensures within { result ≤ ROOM }
    {
        self.bytes.len()
    }

    /// A byte more waits, behind the others.
    pub fn give(&mut self, byte: u8)
        requires { length self.old < ROOM }
        ensures { self.new ≡ self.old ++ byte ∷ [] }
    {
        let _none = self.bytes.push_back(byte);
    }

    /// 1 where a byte waits, else 0.
    pub fn status(&self) -> u32
        ensures { result ≡ status_of self.now }
    {
        if self.bytes.is_empty() { 0 } else { 1 }
    }

    /// Takes the first byte, or gives 0 where none waits.
    pub fn take(&mut self) -> u32
        ensures byte { result ≡ first_of self.old }
        ensures rest { self.new ≡ drop 1 self.old }
    {
        match self.bytes.pop_front() {
            Some(byte) => byte as u32,
            None => 0,
        }
    }
}
