//! What a program loads from and sends to: a trait with four meanings, which contracts see.
ghost use Rattle.std.specs.Prelude.{◌≡◌, ◌≤◌, ◌+◌, ◌<◌, ◌^◌, ℕ, List, Option, IfOk, IfErr, length, IsErrOf};
ghost use Rattle.psx_base.specs.Host.{Rose, IsFront, Sends};
ghost use Rattle.psx_base.specs.declared.host.Out.{Out};

use std::alloc::Global;

/// Where a host sends bytes.
#[derive(Clone, Copy, PartialEq, Eq, Debug)]
pub enum Out {
    /// What the program writes to its terminal.
    Tty,
    /// The lines of the trace.
    Trace,
    /// The memory, or the bytes of a file that was made.
    Ram,
    /// What went wrong, a line.
    Report,
}

/// Why a load gave nothing.
#[derive(Clone, Copy, PartialEq, Eq, Debug)]
pub enum LoadError {
    /// The file could not be read. A count tells.
    Failed,
    /// Want of memory, which no clause ties to a cause.
    Memory,
}

/// Why a send did not take all bytes.
#[derive(Clone, Copy, PartialEq, Eq, Debug)]
pub enum SendError {
    /// The output took a front of the bytes at most. A count tells.
    Failed,
}

/// The files that a program may load, and the outputs that it sends to.
pub trait Host {
    /// The bytes under a name, where the host tells them.
    ghost holds: { Self → List ℕ → Option (List ℕ) };
    /// The bytes sent so far on an output, where the host tells them.
    ghost sent: { Self → Out → Option (List ℕ) };
    /// How often a load of a name failed.
    ghost load_faults: { Self → List ℕ → ℕ };
    /// How often a send failed.
    ghost send_faults: { Self → ℕ };

    /// Loads the first `limit + 1` bytes under a name, or all where fewer are held. It leaves the outputs.
    fn load(&mut self, alloc: Global, name: &str, limit: usize) -> Result<Vec<u8>, LoadError>
        ensures room { IfOk result (λ v. length v.items ≤ limit + 1) }
        ensures bytes { IfOk result (λ v. IsFront (limit + 1) (holds self.old name.now) v.items) }
        ensures failed { IsErrOf result LoadError.Failed → Rose (load_faults self.old name.now) (load_faults self.new name.now) }
        ensures load_faults { (n : List ℕ) → load_faults self.old n ≤ load_faults self.new n }
        ensures send_faults { send_faults self.old ≤ send_faults self.new }
        ensures holds { (n : List ℕ) → holds self.new n ≡ holds self.old n }
        ensures sent { (o : Out) → sent self.new o ≡ sent self.old o };

    /// Sends bytes to an output: all of them, or at a fault a front of them. It leaves the other outputs.
    fn send(&mut self, out: Out, bytes: &[u8]) -> Result<(), SendError>
        ensures sent { Sends (sent self.old) (sent self.new) out bytes.now result }
        ensures failed { IsErrOf result SendError.Failed → Rose (send_faults self.old) (send_faults self.new) }
        ensures load_faults { (n : List ℕ) → load_faults self.old n ≤ load_faults self.new n }
        ensures send_faults { send_faults self.old ≤ send_faults self.new }
        ensures holds { (n : List ℕ) → holds self.new n ≡ holds self.old n };
}
