//! Files in memory, which both hosts of this crate hold.
ghost use Rattle.std.specs.Prelude.{◌≡◌, ℕ, List, None, OnOk, OnErr, option_copied};

use crate::stop::Memory;
use std::alloc::Global;
use std::collections::BTreeMap;

// Bytes by name.
#[derive(Drop)]
pub(crate) struct Files {
    alloc: Global,
    entries: BTreeMap<String, Vec<u8>>,
}

impl Files {
    ghost use Rattle.psx_base.specs.Files.{bytes_under, SetsFile, KeepsFiles};

    pub(crate) fn new(alloc: Global) -> Files
        ensures { (n : List ℕ) → bytes_under result n ≡ None }
    {
        Files {
            alloc,
            entries: BTreeMap::new(alloc),
        }
    }

    // Sets a file.
    pub(crate) fn put(&mut self, name: &str, bytes: &[u8]) -> Result<(), Memory>
        ensures ok { OnOk result (SetsFile (bytes_under self.old) (bytes_under self.new) name.now bytes.now) }
        ensures err { OnErr result (KeepsFiles (bytes_under self.old) (bytes_under self.new)) }
    {
        let Ok(key) = String::from_str(self.alloc, name) else {
            return Err(Memory);
        };
        let Ok(value) = Vec::from_slice(self.alloc, bytes) else {
            return Err(Memory);
        };
        match self.entries.insert(key, value) {
            Ok(_) => Ok(()),
            Err(_) => Err(Memory),
        }
    }

    // The bytes under a name.
    pub(crate) fn find(&self, name: &str) -> Option<&[u8]>
        ensures { option_copied result ≡ bytes_under self.now name.now }
    {
        match self.entries.get(name) {
            Some(bytes) => Some(bytes.as_slice()),
            None => None,
        }
    }
}
