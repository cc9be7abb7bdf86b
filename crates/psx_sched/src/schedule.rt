//! A schedule, and how one is made.
ghost use Rattle.std.specs.Prelude.{◌≡◌, ◌<◌, ◌≤◌, [], ◌∷◌, ◌++◌, List, OnOk, OnErr, length};

use psx_base::Memory;
use std::alloc::Global;
use std::marker::Model;

/// What reaches the board.
#[derive(Clone, Copy, PartialEq, Eq, Debug)]
pub enum What {
    /// A byte for the console.
    Byte(u8),
    /// An interrupt line that is raised, 0 to 10.
    Line(u32),
}

/// Something that reaches the board at a count of steps.
#[derive(Clone, Copy, PartialEq, Eq, Debug)]
pub struct Entry {
    pub count: u64,
    pub what: What,
}

/// The entries of a run, in the order in which they are delivered. Contracts see it as their list.
#[derive(Drop)]
pub struct Schedule {
    entries: Vec<Entry>,
}

impl Model for Schedule {
    ghost use Rattle.std.specs.Prelude.{List};
    ghost use Rattle.psx_sched.specs.declared.schedule.Entry.{Entry};
    ghost use Rattle.psx_sched.specs.Schedule.{IsSchedule};

    ghost Value = { List Entry };

    ghost view = { λ s. s.entries.items };

    ghost invariant = { λ s. IsSchedule s.entries.items };
}

impl Schedule {
    ghost use Rattle.psx_sched.specs.Schedule.{IsSchedule, IsPlausible, last_count};

    /// A schedule without entries. It takes no memory.
    pub fn new(alloc: Global) -> Schedule
        ensures { result ≡ [] }
    {
        Schedule {
            entries: Vec::new(alloc),
        }
    }

    /// Appends an entry, which comes no earlier than the last one.
    pub fn push(&mut self, entry: Entry) -> Result<(), Memory>
        requires room { length self.old < 65536 }
        requires order { last_count 0 self.old ≤ entry.count }
        requires plausible { IsPlausible entry }
        ensures ok { OnOk result (self.new ≡ self.old ++ entry ∷ []) }
        ensures err { OnErr result (self.new ≡ self.old) }
    {
        match self.entries.push(entry) {
            Ok(()) => Ok(()),
            Err(_) => Err(Memory),
        }
    }

    /// Lends the entries.
    pub fn entries(&self) -> &[Entry]
        ensures list { result.now ≡ self.now }
        ensures schedule { IsSchedule self.now }
    {
        self.entries.as_slice()
    }
}
