//! One root counter (PSX-SPX, Timers). It makes no turn by itself: its value at a count is reckoned from its last access, and so is the next turn that raises its line.
ghost use Rattle.std.specs.Prelude.{◌≡◌, ℕ, ◌+◌, ◌-◌, ◌*◌, ◌/◌, ◌%◌, ◌^◌, ◌<◌, ◌≤◌, List, [], ◌∷◌, Bool, not, ◌&&◌, ◌||◌, nat_le, if◌then◌else◌, IfSome, IfNone, false};
ghost use Rattle.psx_ports.specs.Counter as Definitions;
ghost use Rattle.psx_ports.specs.Counter.{Act, SetValue, SetMode, SetTarget, TakeMode, bit, clock, happens, mode_word, meets, meets_target, meets_top, raises};
ghost use Rattle.psx_ports.specs.Laps.{limit_of, IsFirstMeeting};
ghost use Rattle.psx_ports.specs.KeptCounter.{Follows, IsAhead, raises_line};

use crate::laps::{run, turns_to};
use std::marker::Model;
use std::mem;

/// A counter, as its last access left it.
#[derive(Drop)]
pub struct Counter {
    /// 0, 1 or 2.
    number: u32,
    mode: u32,
    target: u32,
    /// The value at the count `since`.
    value: u32,
    since: u64,
    /// Whether the target was reached up to `since`, and FFFFh, and whether an interrupt was asked for.
    reached_target: bool,
    reached_top: bool,
    asked: bool,
    /// No turn before this count raises the line.
    next: u64,
}

impl Model for Counter {
    ghost use Rattle.std.specs.Prelude.{ℕ, ◌<◌, ◌^◌};
    ghost use Rattle.psx_ports.specs.KeptCounter.{KeptCounter};

    ghost Value = { KeptCounter };

    ghost view = { λ c. record { number = c.number; setting = record { mode = c.mode; target = c.target; value = c.value; since = c.since }; target = c.reached_target; top = c.reached_top; asked = c.asked; next = c.next } };

    ghost invariant = { λ c. (c.mode < 2 ^ 10) × (c.target < 2 ^ 16) × (c.value < 2 ^ 16) };
}

// Whether a bit of a word is set.
fn has(word: u32, n: u32) -> bool
    requires { n < 32 }
    ensures { result ≡ bit word n }
{
    word >> n & 1 == 1
}

// A mask, or 0.
fn mask(is_set: bool, mask: u32) -> u32
    ensures { result ≡ (if is_set then mask else 0) }
{
    if is_set { mask } else { 0 }
}

impl Counter {
    /// A counter as it is after reset, at the count 0.
    pub fn new(number: u32) -> Counter
        ensures number { result.number ≡ number }
        ensures follows { Follows result [] 0 }
        ensures ahead { IsAhead result }
        ensures next { result.next ≡ 2 ^ 64 - 1 }
    {
        Counter {
            number,
            mode: 0,
            target: 0,
            value: 0,
            since: 0,
            reached_target: false,
            reached_top: false,
            asked: false,
            next: u64::MAX,
        }
    }

    // The clock as a power of 2.
    fn shift(&self) -> u32
        ensures clock { 2 ^ result ≡ clock self.now.number self.now.setting.mode }
        ensures small { result ≤ 11 }
    {
        match self.number {
            0 => if has(self.mode, 8) { 3 } else { 0 },
            1 => if has(self.mode, 8) { 11 } else { 0 },
            _ => if has(self.mode, 9) { 3 } else { 0 },
        }
    }

    // The last value before 0, once the value has been 0.
    fn limit(&self) -> u32
        ensures { result ≡ limit_of self.now.setting }
    {
        if has(self.mode, 3) && self.target != 0 {
            self.target
        } else {
            0xFFFF
        }
    }

    /// The value at a count, 16 bits.
    pub fn value_at(&self, count: u64) -> u32
        requires { self.now.setting.since ≤ count }
        ensures value { result ≡ Definitions.value_at self.now.number self.now.setting count }
        ensures fits { result < 2 ^ 16 }
    {
        let shift = self.shift();
        run(
            self.value,
            self.limit(),
            (count >> shift) - (self.since >> shift),
        )
    }

    // The count of the first turn that brings the value to x, or None where there is none below 2^64.
    fn first(&self, x: u32) -> Option<u64>
        requires { x < 2 ^ 16 }
        ensures some { IfSome result (λ n. IsFirstMeeting self.now.number self.now.setting x n) }
        ensures none { IfNone result ((n : ℕ) → self.now.setting.since < n → n < 2 ^ 64 → meets self.now.number self.now.setting x n ≡ false) }
    {
        let turns = match turns_to(self.value, self.limit(), x) {
            Some(turns) => turns as u64,
            None => return None,
        };
        let shift = self.shift();
        match (self.since >> shift).checked_add(turns) {
            Some(turn) => turn.checked_mul(1 << shift),
            None => None,
        }
    }

    // Whether a turn up to a count brought the value to x.
    fn met(&self, x: u32, count: u64) -> bool
        requires { x < 2 ^ 16 }
        ensures { result ≡ happens (meets self.now.number self.now.setting x) self.now.setting.since count }
    {
        match self.first(x) {
            Some(first) => first <= count,
            None => false,
        }
    }

    // A count before which no turn brings the value to x.
    fn before(&self, x: u32) -> u64
        requires { x < 2 ^ 16 }
        ensures quiet { (n : ℕ) → self.now.setting.since < n → n < result → meets self.now.number self.now.setting x n ≡ false }
        ensures later { self.now.setting.since < 2 ^ 64 - 1 → self.now.setting.since < result }
    {
        self.first(x).unwrap_or(u64::MAX)
    }

    // Whether a turn up to a count brought the value to the target.
    fn met_target(&self, count: u64) -> bool
        ensures { result ≡ happens (meets_target self.now.number self.now.setting) self.now.setting.since count }
    {
        self.target != 0 && self.met(self.target, count)
    }

    // Whether a turn asks for an interrupt, by whether it reached the target and FFFFh.
    fn asks(&self, target: bool, top: bool) -> bool
        ensures { result ≡ ((bit self.now.setting.mode 4 && target) || (bit self.now.setting.mode 5 && top)) }
    {
        has(self.mode, 4) && target || has(self.mode, 5) && top
    }

    // Whether the next interrupt that is asked for raises the line.
    fn is_armed(&self) -> bool
        ensures { result ≡ (bit self.now.setting.mode 6 || not self.now.asked) }
    {
        has(self.mode, 6) || !self.asked
    }

    // Makes the turns up to a count, and tells whether one raised the line.
    fn settle(&mut self, count: u64) -> bool
        requires { self.old.setting.since ≤ count }
        ensures raised { (acts : List Act) (m : ℕ) → Follows self.old acts m → m ≤ count → result ≡ happens (raises self.old.number acts) m count }
        ensures follows { (acts : List Act) (m : ℕ) → Follows self.old acts m → m ≤ count → Follows self.new acts count }
        ensures since { self.new.setting.since ≡ count }
        ensures number { self.new.number ≡ self.old.number }
    {
        let target = self.met_target(count);
        let top = self.met(0xFFFF, count);
        let asks = self.asks(target, top);
        let raises = asks & self.is_armed();
        self.value = self.value_at(count);
        self.since = count;
        self.reached_target |= target;
        self.reached_top |= top;
        self.asked |= asks;
        raises
    }

    // A count before which no turn asks for an interrupt at the target.
    fn before_target(&self) -> u64
        ensures quiet { (n : ℕ) → self.now.setting.since < n → n < result → (bit self.now.setting.mode 4 && meets_target self.now.number self.now.setting n) ≡ false }
        ensures later { self.now.setting.since < 2 ^ 64 - 1 → self.now.setting.since < result }
    {
        if has(self.mode, 4) && self.target != 0 {
            self.before(self.target)
        } else {
            u64::MAX
        }
    }

    // A count before which no turn asks for one at FFFFh.
    fn before_top(&self) -> u64
        ensures quiet { (n : ℕ) → self.now.setting.since < n → n < result → (bit self.now.setting.mode 5 && meets_top self.now.number self.now.setting n) ≡ false }
        ensures later { self.now.setting.since < 2 ^ 64 - 1 → self.now.setting.since < result }
    {
        if has(self.mode, 5) {
            self.before(0xFFFF)
        } else {
            u64::MAX
        }
    }

    // A count before which no turn raises the line.
    fn before_raise(&self) -> u64
        ensures quiet { (n : ℕ) → self.now.setting.since < n → n < result → raises_line self.now n ≡ false }
        ensures later { self.now.setting.since < 2 ^ 64 - 1 → self.now.setting.since < result }
    {
        if self.is_armed() {
            self.before_target().min(self.before_top())
        } else {
            u64::MAX
        }
    }

    // Looks for the next turn that raises the line.
    fn look_ahead(&mut self)
        ensures same { self.new ≡ record self.old { next = self.new.next } }
        ensures ahead { IsAhead self.new }
        ensures later { self.new.setting.since < 2 ^ 64 - 1 → self.new.setting.since < self.new.next }
    {
        self.next = self.before_raise();
    }

    /// No turn before this count raises the line; 2^64 - 1 where none is known to.
    pub fn next(&self) -> u64
        ensures { result ≡ self.now.next }
    {
        self.next
    }

    /// The target, 16 bits.
    pub fn target(&self) -> u32
        ensures { result ≡ self.now.setting.target }
    {
        self.target
    }

    /// Makes the turns up to a count, and tells whether one raised the line.
    pub fn turn_to(&mut self, count: u64) -> bool
        requires { self.old.setting.since ≤ count }
        ensures raised { (acts : List Act) (m : ℕ) → Follows self.old acts m → m ≤ count → result ≡ happens (raises self.old.number acts) m count }
        ensures follows { (acts : List Act) (m : ℕ) → Follows self.old acts m → m ≤ count → Follows self.new acts count }
        ensures number { self.new.number ≡ self.old.number }
        ensures since { self.new.setting.since ≡ count }
        ensures ahead { IsAhead self.new }
        ensures later { count < 2 ^ 64 - 1 → count < self.new.next }
    {
        let raised = self.settle(count);
        self.look_ahead();
        raised
    }

    /// The mode with its bits 11 and 12, which are cleared. All turns up to the count were made before: none is raised here, nor by the next three.
    pub fn take_mode(&mut self, count: u64) -> u32
        requires { self.old.setting.since ≤ count }
        ensures word { (acts : List Act) → Follows self.old acts count → result ≡ mode_word self.old.number acts count }
        ensures follows { (acts : List Act) → Follows self.old acts count → Follows self.new (TakeMode count ∷ acts) count }
        ensures number { self.new.number ≡ self.old.number }
        ensures since { self.new.setting.since ≡ count }
        ensures ahead { IsAhead self.new }
        ensures later { count < 2 ^ 64 - 1 → count < self.new.next }
    {
        self.settle(count);
        let target = mem::replace(&mut self.reached_target, false);
        let top = mem::replace(&mut self.reached_top, false);
        let word = self.mode + mask(target, 0x800) + mask(top, 0x1000);
        self.look_ahead();
        word
    }

    /// Stores the low 16 bits of a value.
    pub fn set_value(&mut self, count: u64, value: u32)
        requires { self.old.setting.since ≤ count }
        ensures follows { (acts : List Act) → Follows self.old acts count → Follows self.new (SetValue count value ∷ acts) count }
        ensures number { self.new.number ≡ self.old.number }
        ensures since { self.new.setting.since ≡ count }
        ensures ahead { IsAhead self.new }
        ensures later { count < 2 ^ 64 - 1 → count < self.new.next }
    {
        self.settle(count);
        self.value = value % 0x1_0000;
        self.look_ahead();
    }

    /// Stores the low 10 bits of a mode, clears bits 11 and 12 and the value, and arms the interrupt.
    pub fn set_mode(&mut self, count: u64, mode: u32)
        requires { self.old.setting.since ≤ count }
        ensures follows { (acts : List Act) → Follows self.old acts count → Follows self.new (SetMode count mode ∷ acts) count }
        ensures number { self.new.number ≡ self.old.number }
        ensures since { self.new.setting.since ≡ count }
        ensures ahead { IsAhead self.new }
        ensures later { count < 2 ^ 64 - 1 → count < self.new.next }
    {
        self.settle(count);
        self.mode = mode % 0x400;
        self.value = 0;
        self.reached_target = false;
        self.reached_top = false;
        self.asked = false;
        self.look_ahead();
    }

    /// Stores the low 16 bits of a target.
    pub fn set_target(&mut self, count: u64, target: u32)
        requires { self.old.setting.since ≤ count }
        ensures follows { (acts : List Act) → Follows self.old acts count → Follows self.new (SetTarget count target ∷ acts) count }
        ensures number { self.new.number ≡ self.old.number }
        ensures since { self.new.setting.since ≡ count }
        ensures ahead { IsAhead self.new }
        ensures later { count < 2 ^ 64 - 1 → count < self.new.next }
    {
        self.settle(count);
        self.target = target % 0x1_0000;
        self.look_ahead();
    }
}
