//! The devices of a board: the ports with the schedule, as they stand at a count of steps.
ghost use Rattle.std.specs.Prelude.{◌≡◌, ℕ, ◌+◌, ◌-◌, ◌^◌, ◌<◌, ◌≤◌, List, [], length, drop, IsTrue, All};
ghost use Rattle.psx_base.specs.PortAddresses.{port};
ghost use Rattle.psx_sched.specs.Schedule.{IsLine, IsPlausible};
ghost use Rattle.psx_sched.specs.declared.schedule.Entry.{Entry};
ghost use Rattle.psx_ports.specs.History;
ghost use Rattle.psx_ports.specs.History.{History, Read, Write, then_event, at_count, answer, written};
ghost use Rattle.psx_ports.specs.Stands.{StandsFor};
ghost use Rattle.psx_board.specs.Delivery.{due, later, arrived, all_arrived};
ghost use Rattle.psx_board.specs.Devices.{KeptDevices, Carries, NotBefore};

use psx_ports::{PortDid, Ports};
use psx_sched::{Entry, Schedule, What};
use std::marker::Model;

/// The ports with the schedule, at a count of finished steps. Between two counts at which something happens the ports aren't touched.
#[derive(Drop)]
pub(crate) struct Devices {
    ports: Ports,
    schedule: Schedule,
    // how many entries were delivered
    place: usize,
    // no entry is due and no line changes before this count, unless it is the coming one
    next: u64,
    // how many steps are left to it
    left: u64,
}

impl Model for Devices {
    ghost use Rattle.std.specs.Prelude.{drop, ◌-◌, ◌≤◌, length};
    ghost use Rattle.psx_board.specs.Devices.{KeptDevices, IsPlanned};

    ghost Value = { KeptDevices };

    ghost view = { λ d. record { ports = d.ports; waiting = drop d.place d.schedule; count = d.next - d.left } };

    ghost invariant = { λ d. (d.place ≤ length d.schedule) × IsPlanned (record { ports = d.ports; waiting = drop d.place d.schedule; count = d.next - d.left }) d.next d.left };
}

// Gives a byte to the console, or raises a line.
fn pass(ports: &mut Ports, what: What)
    requires line { IsLine what }
    requires room { length ports.old.console < 65536 }
    ensures arrived { (h : History) → StandsFor ports.old h → StandsFor ports.new (arrived h what) }
    ensures room { length ports.new.console ≤ length ports.old.console + 1 }
    ensures count { ports.new.now ≡ ports.old.now }
{
    match what {
        What::Byte(byte) => ports.give(byte),
        What::Line(line) => ports.raise(line),
    }
}

// Delivers the first entries, those whose count has come, and answers how many they are.
fn deliver(ports: &mut Ports, entries: &[Entry], count: u64) -> usize
    requires plausible { All IsPlausible entries.now }
    requires room { length ports.old.console + length entries.now ≤ 65536 }
    ensures arrived { (h : History) → StandsFor ports.old h → StandsFor ports.new (all_arrived h (due count entries.now)) }
    ensures later { drop result entries.now ≡ later count entries.now }
    ensures number { result ≤ length entries.now }
    ensures room { length ports.new.console ≤ length ports.old.console + result }
    ensures now { ports.new.now ≡ ports.old.now }
{
    let mut number = 0;
    for entry in entries {
        if entry.count > count {
            return number;
        }
        pass(ports, entry.what);
        number += 1;
    }
    number
}

// The count of the first entry, or the greatest count where there is none.
fn first_count(entries: &[Entry]) -> u64
    ensures { NotBefore result entries.now }
{
    match entries.first() {
        Some(entry) => entry.count,
        None => u64::MAX,
    }
}

// The next count to look at behind this one: this one at the earliest, where it isn't the last.
fn planned(count: u64, next: u64) -> u64
    ensures least { count ≤ result }
    ensures later { count < 2 ^ 64 - 1 → count < result }
    ensures same { count + 1 < result → result ≡ next }
{
    next.max(count.saturating_add(1))
}

impl Devices {
    /// The devices at reset, before any step, with the entries of count 0 delivered.
    pub(crate) fn new(ports: Ports, schedule: Schedule) -> Devices
        requires fresh { ports.now ≡ 0 }
        requires empty { ports.console ≡ [] }
        ensures carries { (h : History) → StandsFor ports h → Carries result (all_arrived h (due 0 schedule)) (later 0 schedule) }
        ensures counted { result.count ≡ 0 }
    {
        let mut devices = Devices {
            ports,
            schedule,
            place: 0,
            next: 1,
            left: 1,
        };
        devices.arrive(0);
        devices
    }

    /// The number of finished steps.
    #[inline]
    pub(crate) fn count(&self) -> u64
        ensures { result ≡ self.now.count }
    {
        self.next - self.left
    }

    /// Whether a line that isn't masked is pending.
    #[inline]
    pub(crate) fn line(&self) -> bool
        ensures { (h : History) (waiting : List Entry) → Carries self.now h waiting → result ≡ History.line h }
    {
        self.ports.line()
    }

    /// What a port answers to a read.
    pub(crate) fn read(&mut self, at: u32) -> u32
        requires { IsTrue (port at) }
        ensures value { (h : History) (waiting : List Entry) → Carries self.old h waiting → result ≡ answer h at }
        ensures carries { (h : History) (waiting : List Entry) → Carries self.old h waiting → Carries self.new (then_event h (Read h.now at)) waiting }
        ensures counted { self.new.count ≡ self.old.count }
    {
        let count = self.next - self.left;
        self.ports.tick(count);
        let value = self.ports.read(at);
        self.next = planned(count, self.next.min(self.ports.deadline()));
        self.left = self.next - count;
        value
    }

    /// Writes to a port, and tells what it did beyond it.
    pub(crate) fn write(&mut self, at: u32, value: u32) -> PortDid
        requires { IsTrue (port at) }
        ensures did { (h : History) (waiting : List Entry) → Carries self.old h waiting → result ≡ written h at value }
        ensures carries { (h : History) (waiting : List Entry) → Carries self.old h waiting → Carries self.new (then_event h (Write h.now at value)) waiting }
        ensures counted { self.new.count ≡ self.old.count }
    {
        let count = self.next - self.left;
        self.ports.tick(count);
        let did = self.ports.write(at, value);
        self.next = planned(count, self.next.min(self.ports.deadline()));
        self.left = self.next - count;
        did
    }

    /// Counts a finished step: the counters make their turns of the new count, and then its entries are delivered.
    #[inline]
    pub(crate) fn advance(&mut self)
        requires { self.old.count < 2 ^ 64 - 1 }
        ensures carries { (h : History) (waiting : List Entry) → Carries self.old h waiting →
            Carries self.new (all_arrived (at_count h (h.now + 1)) (due (h.now + 1) waiting)) (later (h.now + 1) waiting) }
        ensures counted { self.new.count ≡ self.old.count + 1 }
    {
        if self.left == 1 {
            let next = self.next;
            self.arrive(next);
        } else {
            self.left -= 1;
        }
    }

    // Makes the turns of a count, delivers its entries, and plans the next count at which anything happens.
    fn arrive(&mut self, count: u64)
        requires { self.old.ports.now ≤ count }
        ensures carries { (h : History) (waiting : List Entry) → StandsFor self.old.ports (at_count h self.old.ports.now) → count ≡ h.now → self.old.waiting ≡ waiting →
            Carries self.new (all_arrived h (due h.now waiting)) (later h.now waiting) }
        ensures counted { self.new.count ≡ count }
    {
        self.ports.tick(count);
        let waiting = &self.schedule.entries()[self.place..];
        let number = deliver(&mut self.ports, waiting, count);
        self.place += number;
        let next = first_count(&waiting[number..]).min(self.ports.deadline());
        self.next = planned(count, next);
        self.left = self.next - count;
    }
}
