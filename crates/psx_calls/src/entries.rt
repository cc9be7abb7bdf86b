//! What the entry and the return of a stay tell.
ghost use Rattle.std.specs.Prelude.{◌≡◌, Bool, IsTrue, drop, take};
ghost use Rattle.psx_calls.specs.Entries.{all_zero, begins_function, calls_with, call_of, is_answered, is_gate_of_calls, is_try, leaves_frame, may_take_up, same_call};

use abs_kernel::calls::{CallId, served};
use psx_base::Table;
use psx_trace::{Entered, Regs};

/// DeliverEvent, by its number in table B.
pub const DELIVER_EVENT: u32 = 0x07;

/// ChangeThread, by its number in table B.
pub const CHANGE_THREAD: u32 = 0x10;

/// ReturnFromException, by its number in table B.
pub const RETURN_FROM_EXCEPTION: u32 = 0x17;

/// The SYSCALL that enters a critical section and answers. Those from 4 on deliver an event.
pub const ENTER_CRITICAL: u32 = 1;

/// The first of the SYSCALLs that deliver an event.
pub const DELIVERIES: u32 = 4;

/// The gate in r31 of a function that the kernel has called.
pub const FUNCTION_RETURN: u32 = 0xE0;

/// An entry into the kernel, with what its stay has read last of I_STAT and I_MASK, 0 before.
#[derive(Clone, Copy, PartialEq, Eq, Debug)]
pub struct Entry {
    /// The steps finished before it.
    pub count: u64,
    /// The address of the gate, or of the instruction that entered.
    pub epc: u32,
    /// By what the kernel was entered.
    pub gate: Entered,
    /// The number of the call, or what the trace has in its place.
    pub number: u32,
    /// The pending lines.
    pub stat: u32,
    /// The lines that are let through.
    pub mask: u32,
}

/// The call that was made through a gate, where its table has the number.
pub fn call_of(entry: Entry) -> Option<CallId>
    ensures { result ≡ call_of entry }
{
    match entry.gate {
        Entered::A => served(Table::A, entry.number),
        Entered::B => served(Table::B, entry.number),
        Entered::C => served(Table::C, entry.number),
        _ => None,
    }
}

// Whether the gate is one of the three of calls.
fn is_gate_of_calls(gate: Entered) -> bool
    ensures { result ≡ is_gate_of_calls gate }
{
    matches!(gate, Entered::A | Entered::B | Entered::C)
}

/// Whether two entries made the same call.
pub fn same_call(entry: Entry, gate: Entered, number: u32) -> bool
    ensures { result ≡ same_call entry gate number }
{
    entry.gate == gate && entry.number == number
}

/// Whether a return at an address was a waiting try: the call is made again.
pub fn is_try(entry: Entry, pc: u32) -> bool
    ensures { result ≡ is_try entry pc }
{
    is_gate_of_calls(entry.gate) && pc == entry.epc
}

// Whether a stay may call a function with this argument.
fn calls_with(entry: Entry, argument: u32) -> bool
    ensures { result ≡ calls_with entry argument }
{
    match entry.gate {
        Entered::B => entry.number == DELIVER_EVENT && argument == 0,
        Entered::Sys => entry.number >= DELIVERIES && argument == 0,
        Entered::Interrupt => argument == 0,
        Entered::Back => argument == 0 || argument == entry.number,
        _ => false,
    }
}

// Whether words are all 0.
fn all_zero(words: &[u32]) -> bool
    ensures { result ≡ all_zero words.now }
{
    words.iter().all(|word| *word == 0)
}

/// Whether a return begins a function that the kernel calls.
pub fn begins_function(entry: Entry, sr: u32, regs: Regs) -> bool
    ensures { result ≡ begins_function entry sr regs.0 }
{
    let low = all_zero(&regs.0[..3]);
    let high = all_zero(&regs.0[4..25]);
    let argument = calls_with(entry, regs.0[3]);
    sr % 2 == 0 && regs.0[30] == FUNCTION_RETURN && low && high && argument
}

/// Whether the stay leaves a frame.
pub fn leaves_frame(entry: Entry) -> bool
    ensures { result ≡ leaves_frame entry }
{
    match entry.gate {
        Entered::Back => true,
        Entered::B => entry.number == RETURN_FROM_EXCEPTION,
        _ => false,
    }
}

// Whether a call of table B may take up another context than its caller's, with so many frames there.
fn may_take_up(number: u32, frames: u32) -> bool
    ensures { result ≡ may_take_up number frames }
{
    number == RETURN_FROM_EXCEPTION || (number == CHANGE_THREAD && frames == 0)
}

/// Whether a return that begins no function goes to the caller of a call, with its answer.
pub fn is_answered(entry: Entry, frames: u32) -> bool
    ensures { result ≡ is_answered entry frames }
{
    match entry.gate {
        Entered::A | Entered::C => true,
        Entered::B => !may_take_up(entry.number, frames),
        Entered::Sys => entry.number == ENTER_CRITICAL,
        _ => false,
    }
}
