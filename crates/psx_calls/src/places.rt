//! What is known behind some items of a trace.
ghost use Rattle.std.specs.Prelude.{◌≡◌};
ghost use Rattle.psx_calls.specs.Places.{behind, behind_entry, behind_read, behind_return, behind_try, frames_behind, may_stand};

use crate::entries::{Entry, begins_function, is_try, leaves_frame, same_call};
use psx_base::ports::{I_MASK, I_STAT};
use psx_trace::{Entered, Item, Regs};

/// Where a run is behind some items.
#[derive(Clone, Copy, PartialEq, Eq, Debug)]
pub enum Stage {
    /// In the boot code.
    Boot,
    /// In the program.
    User,
    /// In the stay of the last entry.
    Kernel,
    /// Behind the stop.
    End,
}

/// What is known behind some items.
#[derive(Clone, Copy, PartialEq, Eq, Debug)]
pub struct Place {
    /// Where the run is.
    pub stage: Stage,
    /// How many functions that the kernel has called are at work.
    pub frames: u32,
    /// The last entry.
    pub entry: Entry,
    /// How many tries in a row the call has waited.
    pub tries: u64,
    /// The count of the first of them.
    pub first: u64,
}

/// Before the first item.
pub const START: Place = Place {
    stage: Stage::Boot,
    frames: 0,
    entry: Entry {
        count: 0,
        epc: 0,
        gate: Entered::Trap,
        number: 0,
        stat: 0,
        mask: 0,
    },
    tries: 0,
    first: 0,
};

/// Whether an item may stand there: B or the stop in the boot, entries and the stop in the program, accesses, the return and the stop in a stay.
pub fn may_stand(stage: Stage, item: Item) -> bool
    ensures { result ≡ may_stand stage item }
{
    match stage {
        Stage::Boot => matches!(item, Item::B { .. } | Item::S { .. }),
        Stage::User => matches!(item, Item::E { .. } | Item::S { .. }),
        Stage::Kernel => !matches!(item, Item::B { .. } | Item::E { .. }),
        Stage::End => false,
    }
}

// Behind an entry. The tries of the same call go on.
fn behind_entry(place: Place, entry: Entry) -> Place
    ensures { result ≡ behind_entry place entry }
{
    let tries = if same_call(place.entry, entry.gate, entry.number) {
        place.tries
    } else {
        0
    };
    Place {
        stage: Stage::Kernel,
        frames: place.frames,
        entry,
        tries,
        first: place.first,
    }
}

// The entry behind a read of its stay.
fn behind_read(entry: Entry, at: u32, value: u32) -> Entry
    ensures { result ≡ behind_read entry at value }
{
    match at {
        I_STAT => Entry {
            stat: value,
            ..entry
        },
        I_MASK => Entry {
            mask: value,
            ..entry
        },
        _ => entry,
    }
}

// Behind a return that was a waiting try.
fn behind_try(place: Place) -> Place
    ensures { result ≡ behind_try place }
{
    let first = if place.tries == 0 {
        place.entry.count
    } else {
        place.first
    };
    Place {
        stage: Stage::User,
        tries: place.tries.saturating_add(1),
        first,
        ..place
    }
}

// How many functions are at work behind a return.
fn frames_behind(place: Place, sr: u32, regs: Regs) -> u32
    ensures { result ≡ frames_behind place sr regs.0 }
{
    let left = if leaves_frame(place.entry) {
        place.frames.saturating_sub(1)
    } else {
        place.frames
    };
    if begins_function(place.entry, sr, regs) {
        left.saturating_add(1)
    } else {
        left
    }
}

// Behind a return.
fn behind_return(place: Place, pc: u32, sr: u32, regs: Regs) -> Place
    ensures { result ≡ behind_return place pc sr regs.0 }
{
    if is_try(place.entry, pc) {
        return behind_try(place);
    }
    Place {
        stage: Stage::User,
        frames: frames_behind(place, sr, regs),
        tries: 0,
        ..place
    }
}

/// What is known behind one more item.
pub fn behind(place: Place, item: Item) -> Place
    ensures { result ≡ behind place item }
{
    match item {
        Item::B { .. } => Place {
            stage: Stage::User,
            ..place
        },
        Item::E {
            count,
            epc,
            gate,
            number,
            ..
        } => behind_entry(
            place,
            Entry {
                count,
                epc,
                gate,
                number,
                stat: 0,
                mask: 0,
            },
        ),
        Item::R { at, value, .. } => Place {
            entry: behind_read(place.entry, at, value),
            ..place
        },
        Item::W { .. } => place,
        Item::X { pc, sr, regs, .. } => behind_return(place, pc, sr, regs),
        Item::S { .. } => Place {
            stage: Stage::End,
            ..place
        },
    }
}
