//! A trace as the lines of its stays.
ghost use Rattle.std.specs.Prelude.{◌≡◌, IfErr, IfOk};
ghost use Rattle.psx_calls.specs.declared.shown.Fault.TheVariants.{Memory};
ghost use Rattle.psx_calls.specs.Shown.{IsLines, IsMisplaced, Shows, Tells};

use crate::lines::{put_item, put_waiting};
use crate::numbers::Numbers;
use crate::places::{START, behind, may_stand};
use psx_trace::{Item, Trace, TraceError};
use std::alloc::{AllocError, Global};

/// The greatest length of a trace, in bytes. Its items take at most some 6 times as much memory.
pub const LIMIT: usize = 134_217_728;

/// Why a text isn't shown. Lines are numbered from 1 on.
#[derive(Clone, Copy, PartialEq, Eq, Debug)]
pub enum Fault {
    /// The text has more than so many bytes.
    TooLong { limit: usize },
    /// The first line that isn't the line of an item.
    BadLine { line: u64 },
    /// The first line whose item can't stand behind those before it, as a return without an entry.
    Misplaced { line: u64 },
    /// Want of memory.
    Memory,
}

impl From<AllocError> for Fault {
    ghost from_gives = { λ _ fault. fault ≡ Memory };

    fn from(_error: AllocError) -> Fault {
        Fault::Memory
    }
}

// The lines of items, or the first one that is misplaced.
fn lines_of(alloc: Global, numbers: Numbers, items: &[Item]) -> Result<Vec<u8>, Fault>
    ensures shown { IfOk result (λ out. IsLines numbers items.now out.items) }
    ensures fault { IfErr result (IsMisplaced items.now) }
{
    let mut out = Vec::new(alloc);
    let mut place = START;
    let mut line: u64 = 1;
    let mut left = items;
    while let Some((item, rest)) = left.split_first() {
        if !may_stand(place.stage, *item) {
            return Err(Fault::Misplaced { line });
        }
        put_item(&mut out, numbers, place, *item)?;
        place = behind(place, *item);
        line += 1;
        left = rest;
    }
    put_waiting(&mut out, numbers, place)?;
    Ok(out)
}

/// The lines of a trace: for each stay its count, the call's name, its arguments and its answer, and last the stop.
/// A front of a trace that ends with a whole line is shown too.
pub fn shown(alloc: Global, numbers: Numbers, text: &[u8]) -> Result<Vec<u8>, Fault>
    ensures shown { IfOk result (λ out. Shows numbers text.now out.items) }
    ensures fault { IfErr result (Tells text.now) }
{
    if text.len() > LIMIT {
        return Err(Fault::TooLong { limit: LIMIT });
    }
    match Trace::read(alloc, text) {
        Ok(items) => lines_of(alloc, numbers, items.as_slice()),
        Err(TraceError::BadLine { line }) => Err(Fault::BadLine { line: line as u64 }),
        Err(TraceError::Memory) => Err(Fault::Memory),
    }
}
