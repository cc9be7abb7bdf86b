//! The lines that items give.
ghost use Rattle.std.specs.Prelude.{◌≡◌, ◌++◌, OnOk, drop, take};
ghost use Rattle.psx_calls.specs.Numbers.{number_text};
ghost use Rattle.psx_calls.specs.Lines.{answer, argument_count, called, due_lines, given, in_parentheses, item_line, line_head, listed_more, name_or_number, return_line, return_text, stay_head, stay_under_way, stop_line, waiting};

use crate::entries::{Entry, begins_function, call_of, is_answered, is_try, same_call};
use crate::numbers::{Numbers, put_count, put_number, put_word};
use crate::places::{Place, Stage};
use abs_kernel::calls::{CallId, args, name};
use psx_base::Stop;
use psx_text::front;
use psx_trace::{Entered, Item, Regs, stop_text};
use std::alloc::AllocError;

/// The interrupt lines with their bits in I_STAT and I_MASK (PSX-SPX, Interrupt Control).
pub const LINES: [(u32, u32); 11] = [
    (0, 1),
    (1, 2),
    (2, 4),
    (3, 8),
    (4, 16),
    (5, 32),
    (6, 64),
    (7, 128),
    (8, 256),
    (9, 512),
    (10, 1024),
];

// Two spaces for each of 8 frames, the most that the kernel has.
const INDENT: &[u8] = b"                ";

// Appends bytes.
fn put(out: &mut Vec<u8>, bytes: &[u8]) -> Result<(), AllocError>
    ensures { OnOk result (out.new.items ≡ out.old.items ++ bytes.now) }
{
    out.extend_from_slice(bytes)?;
    Ok(())
}

// Appends those of some lines that are due.
fn put_due_lines(out: &mut Vec<u8>, due: u32, lines: &[(u32, u32)]) -> Result<(), AllocError>
    ensures { OnOk result (out.new.items ≡ out.old.items ++ due_lines due lines.now) }
{
    for line in lines {
        if due & line.1 != 0 {
            put(out, b" ")?;
            put_count(out, line.0 as u64)?;
        }
    }
    Ok(())
}

// Appends a call's name, or the letter of the table and the number that has no row in it.
fn put_name(
    out: &mut Vec<u8>,
    letter: u8,
    call: Option<CallId>,
    number: u32,
) -> Result<(), AllocError>
    ensures { OnOk result (out.new.items ≡ out.old.items ++ name_or_number letter call number) }
{
    match call {
        Some(call) => put(out, name(call).as_bytes()),
        None => {
            put(out, &[letter, b' '])?;
            put_word(out, number)
        }
    }
}

// Appends a text and a number.
fn put_with_number(
    out: &mut Vec<u8>,
    text: &[u8],
    numbers: Numbers,
    number: u32,
) -> Result<(), AllocError>
    ensures { OnOk result (out.new.items ≡ out.old.items ++ (text.now ++ number_text numbers number)) }
{
    put(out, text)?;
    put_number(out, numbers, number)
}

// Appends what entered the kernel.
#[tactic(auto, unfolding(crate::specs::Lines::called))]
fn put_called(out: &mut Vec<u8>, numbers: Numbers, entry: Entry) -> Result<(), AllocError>
    ensures { OnOk result (out.new.items ≡ out.old.items ++ called numbers entry) }
{
    let call = call_of(entry);
    match entry.gate {
        Entered::A => put_name(out, b'A', call, entry.number),
        Entered::B => put_name(out, b'B', call, entry.number),
        Entered::C => put_name(out, b'C', call, entry.number),
        Entered::Sys => put_with_number(out, b"SYSCALL ", numbers, entry.number),
        Entered::Interrupt => {
            put(out, b"interrupt")?;
            put_due_lines(out, entry.stat & entry.mask, &LINES)
        }
        Entered::Done => put_with_number(out, b"program returns ", numbers, entry.number),
        Entered::Back => put_with_number(out, b"function returns ", numbers, entry.number),
        Entered::Trap => put_with_number(out, b"exception ", numbers, entry.number),
    }
}

// Appends a line's count and its indentation.
#[tactic(auto, unfolding(crate::specs::Lines::line_head))]
fn put_head(out: &mut Vec<u8>, count: u64, frames: u32) -> Result<(), AllocError>
    ensures { OnOk result (out.new.items ≡ out.old.items ++ line_head count frames) }
{
    put_count(out, count)?;
    put(out, b" ")?;
    put(out, front(INDENT, 2 * frames as usize))
}

// Appends numbers, each behind a comma.
fn put_more(out: &mut Vec<u8>, numbers: Numbers, words: &[u32]) -> Result<(), AllocError>
    ensures { OnOk result (out.new.items ≡ out.old.items ++ listed_more numbers words.now) }
{
    for word in words {
        put_with_number(out, b", ", numbers, *word)?;
    }
    Ok(())
}

// Appends numbers in parentheses.
fn put_listed(out: &mut Vec<u8>, numbers: Numbers, words: &[u32]) -> Result<(), AllocError>
    ensures { OnOk result (out.new.items ≡ out.old.items ++ in_parentheses numbers words.now) }
{
    put(out, b"(")?;
    if let Some((first, rest)) = words.split_first() {
        put_number(out, numbers, *first)?;
        put_more(out, numbers, rest)?;
    }
    put(out, b")")
}

// The first words, or all where there are fewer.
fn first_words(words: &[u32], count: usize) -> &[u32]
    ensures { result.now ≡ take count words.now }
{
    if count <= words.len() {
        &words[..count]
    } else {
        words
    }
}

// How many arguments a call takes.
#[tactic(auto, unfolding(crate::specs::Lines::argument_count))]
fn argument_count(call: CallId) -> usize
    ensures { result ≡ argument_count call }
{
    args(call) as usize
}

// Appends a call's arguments, from r4 on.
fn put_arguments(
    out: &mut Vec<u8>,
    numbers: Numbers,
    call: CallId,
    regs: Regs,
) -> Result<(), AllocError>
    ensures { OnOk result (out.new.items ≡ out.old.items ++ in_parentheses numbers (take (argument_count call) (drop 3 regs.0))) }
{
    let words = &regs.0[3..];
    put_listed(out, numbers, first_words(words, argument_count(call)))
}

// Appends the arguments, where it is a call.
fn put_given(
    out: &mut Vec<u8>,
    numbers: Numbers,
    call: Option<CallId>,
    regs: Regs,
) -> Result<(), AllocError>
    ensures { OnOk result (out.new.items ≡ out.old.items ++ given numbers call regs.0) }
{
    match call {
        Some(call) => put_arguments(out, numbers, call, regs),
        None => Ok(()),
    }
}

// Appends a call's arguments and its answer.
#[tactic(auto, unfolding(crate::specs::Lines::answer))]
fn put_answer(
    out: &mut Vec<u8>,
    numbers: Numbers,
    call: Option<CallId>,
    regs: Regs,
) -> Result<(), AllocError>
    ensures { OnOk result (out.new.items ≡ out.old.items ++ answer numbers call regs.0) }
{
    put_given(out, numbers, call, regs)?;
    put_with_number(out, b" = ", numbers, regs.0[1])
}

// Appends how a stay returned.
#[tactic(auto, unfolding(crate::specs::Lines::return_text))]
fn put_return(
    out: &mut Vec<u8>,
    numbers: Numbers,
    place: Place,
    pc: u32,
    sr: u32,
    regs: Regs,
) -> Result<(), AllocError>
    ensures { OnOk result (out.new.items ≡ out.old.items ++ return_text numbers place pc sr regs.0) }
{
    if begins_function(place.entry, sr, regs) {
        put(out, b" calls ")?;
        put_word(out, pc)?;
        return put_listed(out, numbers, &regs.0[3..4]);
    }
    if is_answered(place.entry, place.frames) {
        return put_answer(out, numbers, call_of(place.entry), regs);
    }
    put(out, b" -> ")?;
    put_word(out, pc)
}

// Appends the line of the tries behind which another item comes.
#[tactic(auto, unfolding(crate::specs::Lines::waiting))]
pub(crate) fn put_waiting(
    out: &mut Vec<u8>,
    numbers: Numbers,
    place: Place,
) -> Result<(), AllocError>
    ensures { OnOk result (out.new.items ≡ out.old.items ++ waiting numbers place) }
{
    if place.tries == 0 {
        return Ok(());
    }
    put_head(out, place.first, place.frames)?;
    put_called(out, numbers, place.entry)?;
    put(out, b" waits, tries: ")?;
    put_count(out, place.tries)?;
    put(out, b"\n")
}

// Appends a stay's count, its indentation and what entered.
fn put_stay(out: &mut Vec<u8>, numbers: Numbers, place: Place) -> Result<(), AllocError>
    ensures { OnOk result (out.new.items ≡ out.old.items ++ stay_head numbers place) }
{
    put_head(out, place.entry.count, place.frames)?;
    put_called(out, numbers, place.entry)
}

// Appends the line of a return, but for a try.
#[tactic(auto, unfolding(crate::specs::Lines::return_line))]
fn put_return_line(
    out: &mut Vec<u8>,
    numbers: Numbers,
    place: Place,
    pc: u32,
    sr: u32,
    regs: Regs,
) -> Result<(), AllocError>
    ensures { OnOk result (out.new.items ≡ out.old.items ++ return_line numbers place pc sr regs.0) }
{
    if is_try(place.entry, pc) {
        return Ok(());
    }
    put_waiting(out, numbers, place)?;
    put_stay(out, numbers, place)?;
    put_return(out, numbers, place, pc, sr, regs)?;
    put(out, b"\n")
}

// Appends the line of the stay that a stop ends.
fn put_under_way(out: &mut Vec<u8>, numbers: Numbers, place: Place) -> Result<(), AllocError>
    ensures { OnOk result (out.new.items ≡ out.old.items ++ stay_under_way numbers place.stage place) }
{
    match place.stage {
        Stage::Kernel => {
            put_stay(out, numbers, place)?;
            put(out, b"\n")
        }
        _ => Ok(()),
    }
}

// Appends the lines of the stop.
#[tactic(auto, unfolding(crate::specs::Lines::stop_line))]
fn put_stop(
    out: &mut Vec<u8>,
    numbers: Numbers,
    place: Place,
    count: u64,
    stop: Stop,
) -> Result<(), AllocError>
    ensures { OnOk result (out.new.items ≡ out.old.items ++ stop_line numbers place count stop) }
{
    put_waiting(out, numbers, place)?;
    put_under_way(out, numbers, place)?;
    put_count(out, count)?;
    put(out, b" ")?;
    put(out, stop_text(stop).as_slice())?;
    put(out, b"\n")
}

// Appends the lines that an item gives.
pub(crate) fn put_item(
    out: &mut Vec<u8>,
    numbers: Numbers,
    place: Place,
    item: Item,
) -> Result<(), AllocError>
    ensures { OnOk result (out.new.items ≡ out.old.items ++ item_line numbers place item) }
{
    match item {
        Item::E { gate, number, .. } => {
            if same_call(place.entry, gate, number) {
                Ok(())
            } else {
                put_waiting(out, numbers, place)
            }
        }
        Item::X { pc, sr, regs, .. } => put_return_line(out, numbers, place, pc, sr, regs),
        Item::S { count, stop } => put_stop(out, numbers, place, count, stop),
        Item::B { .. } | Item::R { .. } | Item::W { .. } => Ok(()),
    }
}
