//! Where bytes are placed: in the window, and nowhere twice.
ghost use Rattle.std.specs.Prelude.{◌≡◌, ◌<◌, ◌++◌, ◌+◌, ◌%◌, ◌^◌, ℕ, List, [], not, find, length, replicate, option_map, Ok, IfOk, OnOk, IfSome, IsTrue};
ghost use Rattle.psx_asm.specs.Failing.{Gives};
ghost use Rattle.psx_asm.specs.Names.{names};
ghost use Rattle.psx_asm.specs.Operands.{Known};
ghost use Rattle.psx_asm.specs.Encoding.{encoded};
ghost use Rattle.psx_asm.specs.Placing.{addressed, is_inside, is_overlap, in_window, bytes_of_parts};
ghost use Rattle.psx_asm.specs.Output.{shown_output, IsTakenBy, bytes_inside, placed_behind};
ghost use Rattle.psx_asm.specs.Shown.{shown_statement};

use crate::encode::{encoded, zeros};
use crate::fault::{AsmFault, Failure};
use crate::line::padding;
use crate::object::{Bytes, Part, Parts};
use crate::statement::Statement;
use crate::symbols::Symbols;
use std::alloc::{AllocError, Global};
use std::collections::HashSet;

/// The bytes that lines have placed so far: whole parts, and the bytes of the part that may still grow.
#[derive(Drop)]
pub(crate) struct Output {
    parts: Vec<Part>,
    at: u32,
    bytes: Vec<u8>,
}

/// The addresses where bytes may be placed, both ends within them.
#[derive(Clone, Copy)]
pub(crate) struct Window {
    pub from: u32,
    pub to: u32,
}

// The next address.
fn next(at: u32) -> u32
    ensures { result ≡ (at + 1) % 2 ^ 32 }
{
    ((at as u64 + 1) % 4_294_967_296) as u32
}

// Whether an address stands in the window.
fn is_inside(window: Window, at: u32) -> bool
    ensures { result ≡ is_inside window.from window.to at }
{
    window.from <= at && at <= window.to
}

// The first address of so many bytes that isn't in the window.
fn first_outside(window: Window, at: u32, count: usize) -> Option<u32>
    ensures { (bytes : List ℕ) → length bytes ≡ count → result ≡ option_map (λ p. p.0) (find (λ p. not (is_inside window.from window.to p.0)) (addressed at bytes)) }
{
    let mut address = at;
    for _ in 0..count {
        if !is_inside(window, address) {
            return Some(address);
        }
        address = next(address);
    }
    None
}

// Fails where one of so many bytes isn't in the window.
fn check_window(window: Window, at: u32, count: usize) -> Result<(), Failure>
    ensures { (bytes : List ℕ) → length bytes ≡ count
        → Gives (λ _. addressed at bytes) result (in_window (addressed at bytes) (find (λ p. not (is_inside window.from window.to p.0)) (addressed at bytes))) }
{
    match first_outside(window, at, count) {
        Some(value) => Err(Failure::Fault(AsmFault::Range { value })),
        None => Ok(()),
    }
}

// How many zeros a statement places, where it places nothing else.
fn zeros_of(at: u32, statement: &Statement<'_>) -> Option<u32>
    ensures { IfSome result (λ n. (k : Known) → encoded k at (shown_statement statement.now) ≡ Ok (replicate n 0)) }
{
    match statement {
        Statement::Space(count) => Some(*count),
        Statement::Align(last) => Some(padding(*last, at)),
        _ => None,
    }
}

// The bytes of a statement at an address in the window. Zeros are made once it is known that they stand there.
#[tactic(auto, unfolding(crate::specs::Output::bytes_inside))]
fn bytes_inside(
    alloc: Global,
    known: &Symbols<'_>,
    window: Window,
    at: u32,
    statement: &Statement<'_>,
) -> Result<Vec<u8>, Failure>
    ensures { Gives (λ v. v.items) result (bytes_inside (names known.now) window.from window.to at (shown_statement statement.now)) }
{
    if let Some(count) = zeros_of(at, statement) {
        check_window(window, at, count as usize)?;
        return Ok(zeros(alloc, count)?);
    }
    let bytes = encoded(alloc, known, at, statement)?;
    check_window(window, at, bytes.len())?;
    Ok(bytes)
}

// Whether a byte stands at one of so many addresses.
fn is_overlap(taken: &HashSet<u32>, at: u32, count: usize) -> bool
    ensures { (placed : List (ℕ × ℕ)) (bytes : List ℕ) → IsTakenBy taken.now placed → length bytes ≡ count → result ≡ is_overlap placed (addressed at bytes) }
{
    let mut address = at;
    for _ in 0..count {
        if taken.contains(&address) {
            return true;
        }
        address = next(address);
    }
    false
}

// Takes so many addresses.
fn take(taken: &mut HashSet<u32>, at: u32, count: usize) -> Result<(), AllocError>
    ensures { OnOk result ((placed : List (ℕ × ℕ)) (bytes : List ℕ) → IsTakenBy taken.old placed → length bytes ≡ count
        → IsTakenBy taken.new (placed ++ addressed at bytes)) }
{
    let mut address = at;
    for _ in 0..count {
        taken.insert(address)?;
        address = next(address);
    }
    Ok(())
}

impl Output {
    /// No bytes yet.
    pub(crate) fn new(alloc: Global) -> Output
        ensures { shown_output result ≡ [] }
    {
        Output {
            parts: Vec::new(alloc),
            at: 0,
            bytes: Vec::new(alloc),
        }
    }

    // The parts with the last one.
    fn closed(self) -> Result<Vec<Part>, AllocError>
        ensures { IfOk result (λ parts. bytes_of_parts parts.items ≡ shown_output self) }
    {
        let Output {
            mut parts,
            at,
            bytes,
        } = self;
        if !bytes.is_empty() {
            parts.push(Part {
                at,
                bytes: Bytes::of(bytes),
            })?;
        }
        Ok(parts)
    }

    /// The parts.
    pub(crate) fn parts(self) -> Result<Parts, AllocError>
        ensures { IfOk result (λ parts. bytes_of_parts parts ≡ shown_output self) }
    {
        Ok(Parts::of(self.closed()?))
    }

    // Whether bytes at an address would stand behind the last ones.
    fn goes_on_at(&self, at: u32) -> bool
        ensures behind { IsTrue result → at ≡ (self.now.at + length self.now.bytes.items) % 2 ^ 32 }
        ensures small { self.now.at < 2 ^ 32 }
    {
        at as u64 == (self.at as u64 + self.bytes.len() as u64) % 4_294_967_296
    }

    /// With more bytes from an address on.
    pub(crate) fn with(self, alloc: Global, at: u32, more: Vec<u8>) -> Result<Output, AllocError>
        ensures { IfOk result (λ o. shown_output o ≡ shown_output self ++ addressed at more.items) }
    {
        if self.goes_on_at(at) {
            let Output {
                parts,
                at,
                mut bytes,
            } = self;
            bytes.extend_from_slice(more.as_slice())?;
            return Ok(Output { parts, at, bytes });
        }
        let parts = self.closed()?;
        Ok(Output {
            parts,
            at,
            bytes: more,
        })
    }
}

/// Places a statement's bytes in the window behind those that are there.
pub(crate) fn placed(
    alloc: Global,
    known: &Symbols<'_>,
    window: Window,
    taken: &mut HashSet<u32>,
    output: Output,
    at: u32,
    statement: &Statement<'_>,
) -> Result<Output, Failure>
    requires { IsTakenBy taken.old (shown_output output) }
    ensures placed { Gives shown_output result (placed_behind (names known.now) window.from window.to at (shown_output output) (shown_statement statement.now)) }
    ensures taken { IfOk result (λ o. IsTakenBy taken.new (shown_output o)) }
{
    let bytes = match bytes_inside(alloc, known, window, at, statement) {
        Ok(bytes) => bytes,
        Err(failure) => return Err(failure),
    };
    let count = bytes.as_slice().len();
    if is_overlap(taken, at, count) {
        return Err(Failure::Fault(AsmFault::Overlap));
    }
    take(taken, at, count)?;
    Ok(output.with(alloc, at, bytes)?)
}
