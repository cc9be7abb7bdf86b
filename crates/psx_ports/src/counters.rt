//! The three root counters, by the addresses of their ports.
ghost use Rattle.std.specs.Prelude.{◌≡◌, ℕ, ◌-◌, ◌^◌, ◌<◌, ◌≤◌, [], ◌∷◌, List, min};
ghost use Rattle.psx_ports.specs.History;
ghost use Rattle.psx_ports.specs.History.{Event, Read, Write, turned, word_of, counters_answer};
ghost use Rattle.psx_ports.specs.Stands.{CountersStand, AreSince, least_next};

use crate::counter::Counter;
use psx_base::ports::COUNTERS;
use std::marker::Model;

// The ports of the counters (PSX-SPX, Timers).
const VALUE_0: u32 = COUNTERS;

const MODE_0: u32 = COUNTERS + 0x04;

const TARGET_0: u32 = COUNTERS + 0x08;

const VALUE_1: u32 = COUNTERS + 0x10;

const MODE_1: u32 = COUNTERS + 0x14;

const TARGET_1: u32 = COUNTERS + 0x18;

const VALUE_2: u32 = COUNTERS + 0x20;

const MODE_2: u32 = COUNTERS + 0x24;

const TARGET_2: u32 = COUNTERS + 0x28;

/// Whether an address is in the range of the counters' ports.
pub fn is_counter_port(at: u32) -> bool
    ensures { result ≡ History.is_counter_port at }
{
    at >= VALUE_0 && at <= TARGET_2
}

/// Root counters 0 to 2.
#[derive(Drop)]
pub struct Counters {
    zero: Counter,
    one: Counter,
    two: Counter,
}

impl Model for Counters {
    ghost use Rattle.psx_ports.specs.Stands.{KeptCounters};

    ghost Value = { KeptCounters };

    ghost view = { λ c. record { zero = c.zero; one = c.one; two = c.two } };
}

impl Counters {
    /// The counters as they are after reset, at the count 0.
    pub fn new() -> Counters
        ensures { CountersStand result [] 0 }
    {
        Counters {
            zero: Counter::new(0),
            one: Counter::new(1),
            two: Counter::new(2),
        }
    }

    /// No turn before this count raises a line; 2^64 - 1 where none is known to.
    pub fn next(&self) -> u64
        ensures { result ≡ least_next self.now }
    {
        self.zero.next().min(self.one.next().min(self.two.next()))
    }

    /// Makes the turns up to a count, and tells by their bits which lines were raised.
    pub fn turn_to(&mut self, count: u64) -> u32
        requires { AreSince self.old count }
        ensures raised { (events : List Event) (m : ℕ) → CountersStand self.old events m → m ≤ count → result ≡ word_of (λ n. turned n events m count) 11 }
        ensures stands { (events : List Event) (m : ℕ) → CountersStand self.old events m → m ≤ count → CountersStand self.new events count }
        ensures since { AreSince self.new count }
    {
        let zero = (self.zero.turn_to(count) as u32) << 4;
        let one = (self.one.turn_to(count) as u32) << 5;
        let two = (self.two.turn_to(count) as u32) << 6;
        zero | one | two
    }

    /// What the port of a counter answers at a count up to which all turns are made, and 0 for another port.
    #[tactic(auto, unfolding(crate::specs::History::counters_answer))]
    pub fn read(&mut self, count: u64, at: u32) -> u32
        requires { AreSince self.old count }
        ensures value { (events : List Event) → CountersStand self.old events count → result ≡ counters_answer events count at }
        ensures stands { (events : List Event) → CountersStand self.old events count → CountersStand self.new (Read count at ∷ events) count }
        ensures since { AreSince self.new count }
    {
        match at {
            VALUE_0 => self.zero.value_at(count),
            VALUE_1 => self.one.value_at(count),
            VALUE_2 => self.two.value_at(count),
            MODE_0 => self.zero.take_mode(count),
            MODE_1 => self.one.take_mode(count),
            MODE_2 => self.two.take_mode(count),
            TARGET_0 => self.zero.target(),
            TARGET_1 => self.one.target(),
            TARGET_2 => self.two.target(),
            _ => 0,
        }
    }

    /// Writes to the port of a counter at a count up to which all turns are made; nothing happens at another port.
    pub fn write(&mut self, count: u64, at: u32, value: u32)
        requires { AreSince self.old count }
        ensures stands { (events : List Event) → CountersStand self.old events count → CountersStand self.new (Write count at value ∷ events) count }
        ensures since { AreSince self.new count }
    {
        match at {
            VALUE_0 => self.zero.set_value(count, value),
            VALUE_1 => self.one.set_value(count, value),
            VALUE_2 => self.two.set_value(count, value),
            MODE_0 => self.zero.set_mode(count, value),
            MODE_1 => self.one.set_mode(count, value),
            MODE_2 => self.two.set_mode(count, value),
            TARGET_0 => self.zero.set_target(count, value),
            TARGET_1 => self.one.set_target(count, value),
            TARGET_2 => self.two.set_target(count, value),
            _ => {}
        }
    }
}
