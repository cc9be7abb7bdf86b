//! A host that never fails, for clauses that speak of one.
ghost use Rattle.std.specs.Prelude.{◌≡◌, ◌≤◌, ◌+◌, ℕ, List, [], Option, Some, None, OnOk, OnErr, IfOk, unwrap_or, take};
ghost use Rattle.psx_base.specs.declared.host.Out.{Out};

use crate::files::Files;
use crate::host::{Host, LoadError, Out, SendError};
use crate::memory_host::{copied, front};
use crate::stop::Memory;
use std::alloc::Global;

/// A host that never fails: a name that isn't held is an empty file, and what is sent is dropped.
#[derive(Drop)]
pub struct NoFailHost {
    files: Files,
}

impl NoFailHost {
    ghost use Rattle.psx_base.specs.Files.{SetsFile, KeepsFiles};
    ghost use Rattle.psx_base.specs.NoFailHost.{kept};

    /// A host with no files.
    pub fn new(alloc: Global) -> NoFailHost
        ensures { (n : List ℕ) → kept result n ≡ None }
    {
        NoFailHost {
            files: Files::new(alloc),
        }
    }

    /// Sets a file, in place of what the name had. An Err leaves all files as they were.
    pub fn put(&mut self, name: &str, bytes: &[u8]) -> Result<(), Memory>
        ensures ok { OnOk result (SetsFile (kept self.old) (kept self.new) name.now bytes.now) }
        ensures err { OnErr result (KeepsFiles (kept self.old) (kept self.new)) }
    {
        self.files.put(name, bytes)
    }
}

impl Host for NoFailHost {
    ghost use Rattle.psx_base.specs.NoFailHost.{kept};

    ghost holds = { λ h n. Some (unwrap_or (kept h n) []) };

    ghost sent = { λ _ _. None };

    ghost load_faults = { λ _ _. 0 };

    ghost send_faults = { λ _. 0 };

    fn load(&mut self, alloc: Global, name: &str, limit: usize) -> Result<Vec<u8>, LoadError> {
        match self.files.find(name) {
            Some(bytes) => copied(alloc, front(bytes, limit)),
            None => Ok(Vec::new(alloc)),
        }
    }

    fn send(&mut self, _out: Out, _bytes: &[u8]) -> Result<(), SendError> {
        Ok(())
    }
}
