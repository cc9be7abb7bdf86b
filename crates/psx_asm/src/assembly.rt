//! A text assembled.
ghost use Rattle.std.specs.Prelude.{◌≡◌, ◌⊎◌, ◌≤◌, ◌==◌, Option, Ok, Err, Result, IfOk, IfErr, MatchResult, List, [], length, drop, map, codes};
ghost use Rattle.std.specs.List.{before_first, position_or_len};
ghost use Rattle.psx_asm.specs.declared.fault.AsmError.{AsmError as Fault};
ghost use Rattle.psx_asm.specs.Piece.{Piece};
ghost use Rattle.psx_asm.specs.Names.{names};
ghost use Rattle.psx_asm.specs.Walking.{shown_item};
ghost use Rattle.psx_asm.specs.Placing.{bytes_of_parts};
ghost use Rattle.psx_asm.specs.Rounds.{error_at, GivesRound, GivesPlaced, GivesObject, placed_items};
ghost use Rattle.psx_asm.specs.Assembly.{lines_of, AreReadAs, first_round, label_address, assembled, IsAssemblyOf, Placed, placed_by, HasOneAnswer};

use crate::fault::{AsmError, Failure, LONGEST};
use crate::line::{Item, Line, Walk, line_after, pass};
use crate::object::{Object, Parts};
use crate::place::{Output, Window, placed};
use crate::symbol::Symbol;
use crate::symbols::Symbols;
use std::alloc::{AllocError, Global};
use std::collections::HashSet;

// How many bytes the first line of a text has.
fn line_len(text: &[u8]) -> usize
    ensures value { result ≡ position_or_len (λ b. b == 10) text.now }
    ensures within { result ≤ length text.now }
{
    text.iter().take_while(|byte| **byte != 10).count()
}

// The line that begins at a place.
fn line_at(text: &[u8], from: usize) -> &[u8]
    requires { from ≤ length text.now }
    ensures { result.now ≡ before_first (λ b. b == 10) (drop from text.now) }
{
    let rest = &text[from..];
    &rest[..line_len(rest)]
}

// The fault of a line.
fn at_line(number: u32, failure: Failure) -> AsmError
    ensures { result ≡ error_at number failure }
{
    match failure {
        Failure::Memory => AsmError::Memory,
        Failure::Fault(fault) => AsmError::Line {
            line: number,
            fault,
        },
    }
}

// What lines gave, and their statements that aren't empty.
#[derive(Drop)]
struct Round<'a> {
    walk: Walk<'a>,
    items: Vec<Item<'a>>,
}

// The first round.
fn first_round(alloc: Global, text: &[u8]) -> Result<Round<'_>, AsmError>
    requires { length text.now ≤ 4194304 }
    ensures { (readings : List (Option (List Piece))) → AreReadAs (lines_of text.now) readings → GivesRound result (first_round [] readings) }
{
    let mut walk = Walk::new(alloc);
    let mut items = Vec::new(alloc);
    let mut from = 0;
    while from <= text.len() {
        let line = line_at(text, from);
        let number = walk.number + 1;
        match line_after(alloc, &walk.symbols, line) {
            Err(failure) => return Err(at_line(number, failure)),
            Ok(found) => {
                let Ok(()) = pass(&mut walk, &mut items, found) else {
                    return Err(AsmError::Memory);
                };
            }
        }
        from = from + line.len() + 1;
    }
    Ok(Round { walk, items })
}

// The second round.
fn second_round(
    alloc: Global,
    known: &Symbols<'_>,
    window: Window,
    items: &[Item<'_>],
) -> Result<Parts, AsmError>
    ensures { GivesPlaced bytes_of_parts result (placed_items (names known.now) window.from window.to [] (map shown_item items.now)) }
{
    let mut taken = HashSet::new(alloc);
    let mut output = Output::new(alloc);
    for item in items {
        match placed(
            alloc,
            known,
            window,
            &mut taken,
            output,
            item.at,
            &item.statement,
        ) {
            Ok(more) => output = more,
            Err(failure) => return Err(at_line(item.number, failure)),
        }
    }
    match output.parts() {
        Ok(parts) => Ok(parts),
        Err(_) => Err(AsmError::Memory),
    }
}

// The address of the label `start`.
fn start_of(known: &Symbols<'_>) -> Option<u32>
    ensures { result ≡ label_address (names known.now (codes "start")) }
{
    match known.get(b"start") {
        Some(Symbol::Address(at)) => Some(at),
        _ => None,
    }
}

// A text that isn't too long.
fn assembled(alloc: Global, text: &[u8], window: Window) -> Result<Object, AsmError>
    requires { length text.now ≤ 4194304 }
    ensures { (readings : List (Option (List Piece))) → AreReadAs (lines_of text.now) readings → GivesObject result (assembled window.from window.to readings) }
{
    let round = match first_round(alloc, text) {
        Ok(round) => round,
        Err(error) => return Err(error),
    };
    let known = &round.walk.symbols;
    let start = start_of(known);
    match second_round(alloc, known, window, round.items.as_slice()) {
        Ok(parts) => Ok(Object { parts, start }),
        Err(error) => Err(error),
    }
}

/// The law of assembly: each text gives one thing in a window, or has one first fault. The call does nothing.
pub fn object_or_fault(text: &[u8], from: u32, to: u32)
    ensures { HasOneAnswer text.now from to }
{}

/// The bytes that a text of assembly language places in the window from one address to another, both within it, and the address of its
/// label `start`; or the text's first fault. Where memory is short, `Memory` comes in their place.
pub fn assemble(alloc: Global, text: &[u8], from: u32, to: u32) -> Result<Object, AsmError>
    requires { from ≤ to }
    ensures object { IfOk result (λ o. IsAssemblyOf text.now from to (Ok (placed_by o))) }
    ensures fault { IfErr result (λ e. (e ≡ AsmError.Memory) ⊎ IsAssemblyOf text.now from to (Err e)) }
    ensures only { (answer : Result Placed Fault) → IsAssemblyOf text.now from to answer
        → MatchResult result (λ o. answer ≡ Ok (placed_by o)) (λ e. (e ≡ AsmError.Memory) ⊎ (answer ≡ Err e)) }
{
    if text.len() > LONGEST {
        return Err(AsmError::TooLong { limit: LONGEST });
    }
    assembled(alloc, text, Window { from, to })
}
