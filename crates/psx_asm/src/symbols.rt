//! The names that a text has given, in the order in which it gave them.
use crate::symbol::Symbol;
use indexmap::IndexMap;
use std::alloc::{AllocError, Global};

/// What a text has given each name. Contracts see it by `names`.
#[derive(Drop)]
pub(crate) struct Symbols<'a> {
    map: IndexMap<&'a [u8], Symbol>,
}

impl<'a> Symbols<'a> {
    ghost use Rattle.std.specs.Prelude.{◌≡◌, ℕ, List, None, Some, OnOk, bytes_eq, if◌then◌else◌};
    ghost use Rattle.psx_asm.specs.Names.{names};

    /// No names. It takes no memory.
    pub(crate) fn new(alloc: Global) -> Symbols<'a>
        ensures { (q : List ℕ) → names result q ≡ None }
    {
        Symbols {
            map: IndexMap::new(alloc),
        }
    }

    /// What a name stands for.
    pub(crate) fn get(&self, name: &[u8]) -> Option<Symbol>
        ensures { result ≡ names self.now name.now }
    {
        match self.map.get(name) {
            Some(symbol) => Some(*symbol),
            None => None,
        }
    }

    /// Gives a name.
    pub(crate) fn insert(&mut self, name: &'a [u8], symbol: Symbol) -> Result<(), AllocError>
        ensures { OnOk result ((q : List ℕ) → names self.new q ≡ (if bytes_eq name.now q then Some symbol else names self.old q)) }
    {
        match self.map.insert(name, symbol) {
            Ok(_) => Ok(()),
            Err(_) => Err(AllocError),
        }
    }
}
