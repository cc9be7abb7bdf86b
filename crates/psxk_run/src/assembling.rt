//! The command `asm`: the PS-EXE of what an assembly text places.
ghost use Rattle.std.specs.Prelude.{◌≡◌, ◌≢◌, ◌⊎◌, ◌<◌, ◌≤◌, ◌+◌, ◌-◌, ◌*◌, ◌/◌, ◌%◌, ◌^◌, ℕ, List, [], ◌∷◌, All, IfOk, length, slice_set, replicate};
ghost use Rattle.psx_asm.specs.Assembly.{placed_by};
ghost use Rattle.psx_asm.specs.Placing.{addressed, bytes_of_parts};
ghost use Rattle.psxk_run.specs.Assembling.{window_from, window_to, lowest, highest, put, down, up, pc_of, program, spanned, program_of, assembling, AreInWindow};

use psx_asm::{Object, Part};
use psx_base::Memory;
use psx_exe::{Exe, Text};
use std::alloc::{AllocError, Global};

/// The first address of the window.
pub(crate) const FROM: u32 = 0x8001_0000;

/// The last one.
pub(crate) const TO: u32 = 0x801F_FFFF;

// The lowest and the highest address at which a byte is placed.
#[derive(Clone, Copy)]
struct Span {
    low: u32,
    high: u32,
}

// Widens a span by the bytes of a part.
fn widen(span: Span, part: &Part) -> Span
    ensures low { result.low ≡ lowest span.low (addressed part.now.at part.now.bytes) }
    ensures high { result.high ≡ highest span.high (addressed part.now.at part.now.bytes) }
{
    let mut wide = span;
    let mut at = part.at;
    for place in 0..part.bytes.as_slice().len() {
        wide = Span {
            low: wide.low.min(at),
            high: wide.high.max(at),
        };
        at = at.wrapping_add(1);
    }
    wide
}

// The span of all parts.
fn span_of(parts: &[Part]) -> Span
    ensures low { result.low ≡ lowest window_to (bytes_of_parts parts.now) }
    ensures high { result.high ≡ highest window_from (bytes_of_parts parts.now) }
{
    let mut span = Span {
        low: TO,
        high: FROM,
    };
    for part in parts {
        span = widen(span, part);
    }
    span
}

// Puts a byte into a text, where it has this place.
fn put_byte(text: &mut [u8], place: usize, byte: u8)
    ensures { text.new ≡ slice_set text.old place byte }
{
    if place < text.len() {
        text[place] = byte;
    }
}

// Puts the bytes of a part into a text that stands from an address on.
fn put_part(text: &mut [u8], dest: u32, part: &Part)
    ensures { text.new ≡ put dest text.old (addressed part.now.at part.now.bytes) }
{
    let bytes = part.bytes.as_slice();
    let mut at = part.at;
    for place in 0..bytes.len() {
        put_byte(text, at.saturating_sub(dest) as usize, bytes[place]);
        at = at.wrapping_add(1);
    }
}

// Puts the bytes of all parts.
fn put_parts(text: &mut [u8], dest: u32, parts: &[Part])
    ensures { text.new ≡ put dest text.old (bytes_of_parts parts.now) }
{
    for part in parts {
        put_part(text, dest, part);
    }
}

// A program without gp, fill and stack of its own.
fn program(alloc: Global, pc: u32, dest: u32, text: &[u8]) -> Result<Exe, Memory>
    ensures { IfOk result (λ e. e ≡ program pc dest text.now) }
{
    Ok(Exe {
        pc,
        gp: 0,
        dest,
        fill_start: 0,
        fill_size: 0,
        sp_base: 0,
        sp_offset: 0,
        text: Text::from_slice(alloc, text)?,
    })
}

// Zeros.
fn zeros(alloc: Global, len: usize) -> Result<Vec<u8>, AllocError>
    ensures { IfOk result (λ v. v.items ≡ replicate len 0) }
{
    vec![in alloc; 0u8; len]
}

// The program of the bytes of an object, which stand in a span of the window.
fn spanned(alloc: Global, object: &Object, span: Span) -> Result<Exe, Memory>
    ensures { IfOk result (λ e. e ≡ spanned object.now.start (bytes_of_parts object.now.parts) span.low span.high) }
{
    let dest = span.low - span.low % 2048;
    let end = (span.high as u64 / 2048 + 1) * 2048;
    let Ok(mut text) = zeros(alloc, end.saturating_sub(dest as u64) as usize) else {
        return Err(Memory);
    };
    put_parts(&mut text, dest, object.parts.as_slice());
    let pc = object.start.unwrap_or(span.low);
    program(alloc, pc, dest, &text)
}

// The program of an object; where nothing is placed no address is in the span.
fn program_of(alloc: Global, object: &Object) -> Result<Exe, Memory>
    requires { AreInWindow (bytes_of_parts object.now.parts) }
    ensures program { IfOk result (λ e. e ≡ program_of (placed_by object.now)) }
    ensures small { IfOk result (λ e. length e.text < 2 ^ 31) }
{
    let span = span_of(object.parts.as_slice());
    if span.high < span.low {
        return program(alloc, FROM, FROM, &[]);
    }
    spanned(alloc, object, span)
}

/// The file that `asm` sends of an object.
pub(crate) fn assembling(alloc: Global, object: &Object) -> Result<Vec<u8>, Memory>
    requires { AreInWindow (bytes_of_parts object.now.parts) }
    ensures { IfOk result (λ file. file.items ≡ assembling (placed_by object.now)) }
{
    program_of(alloc, object)?.write(alloc)
}
