//! Lines: a label and a statement, which names they give, and where each line stands.
ghost use Rattle.std.specs.Prelude.{◌≡◌, ◌<◌, ◌+◌, ◌^◌, ◌++◌, ◌∷◌, [], ℕ, List, Ok, Option, OnOk, map, option_map};
ghost use Rattle.psx_asm.specs.Failing.{Gives, IsTwice};
ghost use Rattle.psx_asm.specs.Names.{names};
ghost use Rattle.psx_asm.specs.Piece.{Piece as Words, IsReadAs};
ghost use Rattle.psx_asm.specs.Line.{Line as Shown, statement_of, with_operands, split_label, read_line, is_label, checked_label, checked_name, line_after, known, size, after, named, width_of, padding};
ghost use Rattle.psx_asm.specs.Shown.{shown, shown_statement, shown_label};
ghost use Rattle.psx_asm.specs.Walking.{shown_line, shown_item, item, labelled, over, StandsBehind};

use crate::directive::by_directive;
use crate::fault::{AsmFault, Failure};
use crate::instruction::by_shape;
use crate::object::Name;
use crate::piece::{Piece, read};
use crate::shape::Width;
use crate::shapes::{directive_of, shape_of};
use crate::statement::Statement;
use crate::symbol::Symbol;
use crate::symbols::Symbols;
use std::alloc::{AllocError, Global};

/// A line without a fault of the first round.
#[derive(Drop)]
pub(crate) struct Line<'a> {
    pub label: Option<&'a [u8]>,
    pub statement: Statement<'a>,
}

/// A statement that isn't empty, with its line's number and address.
#[derive(Drop)]
pub(crate) struct Item<'a> {
    pub number: u32,
    pub at: u32,
    pub statement: Statement<'a>,
}

/// What is known behind some lines of a text: the names that they gave, how many they are, and the next address.
#[derive(Drop)]
pub(crate) struct Walk<'a> {
    pub symbols: Symbols<'a>,
    pub number: u32,
    pub at: u32,
}

// A statement, where its operands are right.
fn with_operands(found: Option<Statement<'_>>) -> Result<Statement<'_>, Failure>
    ensures { Gives shown_statement result (with_operands (option_map shown_statement found.entry)) }
{
    match found {
        Some(statement) => Ok(statement),
        None => Err(Failure::Fault(AsmFault::BadOperand)),
    }
}

// The statement of these pieces.
fn statement_of<'a>(
    alloc: Global,
    known: &Symbols<'_>,
    pieces: &[Piece<'a>],
) -> Result<Statement<'a>, Failure>
    ensures { Gives shown_statement result (statement_of (names known.now) (shown pieces.now)) }
{
    match pieces {
        [] => Ok(Statement::Empty),
        [Piece::Name(word), rest @ ..] => match shape_of(word) {
            Some(shape) => with_operands(by_shape(known, word, rest, shape)),
            None => Err(Failure::Fault(AsmFault::UnknownWord)),
        },
        [Piece::Directive(word), rest @ ..] => match directive_of(word) {
            Some(directive) => with_operands(by_directive(alloc, known, rest, directive)?),
            None => Err(Failure::Fault(AsmFault::UnknownWord)),
        },
        _ => Err(Failure::Fault(AsmFault::UnknownWord)),
    }
}

// A line's label and the pieces of its statement.
fn split_label<'p, 'a>(pieces: &'p [Piece<'a>]) -> (Option<&'a [u8]>, &'p [Piece<'a>])
    ensures { (shown_label result.0, shown result.1.now) ≡ split_label (shown pieces.now) }
{
    match pieces {
        [Piece::Name(word), Piece::Mark(byte), rest @ ..] if *byte == b':' => (Some(*word), rest),
        _ => (None, pieces),
    }
}

// A line whose tokens were found.
fn read_line<'a>(
    alloc: Global,
    known: &Symbols<'_>,
    reading: Option<Vec<Piece<'a>>>,
) -> Result<Line<'a>, Failure>
    ensures { Gives shown_line result (read_line (names known.now) (option_map (λ v. shown v.items) reading.entry)) }
{
    let Some(pieces) = reading else {
        return Err(Failure::Fault(AsmFault::BadToken));
    };
    let (label, rest) = split_label(pieces.as_slice());
    let statement = statement_of(alloc, known, rest)?;
    Ok(Line { label, statement })
}

// The fault of a name that the text gave before.
fn twice(alloc: Global, name: &[u8]) -> Failure
    ensures { IsTwice name.now result }
{
    match Name::of(alloc, name) {
        Ok(label) => Failure::Fault(AsmFault::Twice { label }),
        Err(_) => Failure::Memory,
    }
}

// Whether a line's label is this name.
fn is_label(label: Option<&[u8]>, name: &[u8]) -> bool
    ensures { result ≡ is_label (shown_label label.entry) name.now }
{
    match label {
        Some(label) => label == name,
        None => false,
    }
}

// A line whose label the text didn't give before.
fn checked_label<'a>(
    alloc: Global,
    known: &Symbols<'_>,
    line: Line<'a>,
) -> Result<Line<'a>, Failure>
    ensures { Gives shown_line result (checked_label (names known.now) (shown_line line.entry) (shown_label line.entry.label)) }
{
    if let Some(label) = line.label {
        if known.get(label).is_some() {
            return Err(twice(alloc, label));
        }
    }
    Ok(line)
}

// A line whose name of `.equ` the text didn't give before, nor the line as its label.
fn checked_name<'a>(alloc: Global, known: &Symbols<'_>, line: Line<'a>) -> Result<Line<'a>, Failure>
    ensures { Gives shown_line result (checked_name (names known.now) (shown_line line.entry) (shown_statement line.entry.statement)) }
{
    if let Statement::Equ(name, _) = &line.statement {
        if known.get(name).is_some() || is_label(line.label, name) {
            return Err(twice(alloc, name));
        }
    }
    Ok(line)
}

/// A line, or its fault of the first round, by what is known of each name before it.
pub(crate) fn line_after<'a>(
    alloc: Global,
    known: &Symbols<'_>,
    line: &'a [u8],
) -> Result<Line<'a>, Failure>
    ensures { (reading : Option (List Words)) → IsReadAs line.now reading → Gives shown_line result (line_after (names known.now) reading) }
{
    let found = read_line(alloc, known, read(alloc, line)?)?;
    let found = checked_label(alloc, known, found)?;
    checked_name(alloc, known, found)
}

/// How many bytes a value takes.
pub(crate) fn width_of(width: Width) -> u32
    ensures { result ≡ width_of width }
{
    match width {
        Width::Byte => 1,
        Width::Half => 2,
        Width::Word => 4,
    }
}

/// The zeros up to a multiple of one more than a number.
pub(crate) fn padding(last: u16, at: u32) -> u32
    ensures { result ≡ padding last at }
{
    let multiple = last as u32 + 1;
    (multiple - at % multiple) % multiple
}

// How many bytes a statement places at an address.
fn size(at: u32, statement: &Statement<'_>) -> u128
    ensures value { result ≡ size at (shown_statement statement.now) }
    ensures small { result < 2 ^ 68 }
{
    match statement {
        Statement::Alone(_) | Statement::Branch(_, _) | Statement::Jump(_, _) => 4,
        Statement::Pair(_, _) | Statement::Address(_, _) => 8,
        Statement::Values(Width::Byte, values) => values.len() as u128,
        Statement::Values(Width::Half, values) => 2 * values.len() as u128,
        Statement::Values(Width::Word, values) => 4 * values.len() as u128,
        Statement::Text(bytes) => bytes.len() as u128,
        Statement::Space(count) => *count as u128,
        Statement::Align(last) => padding(*last, at) as u128,
        Statement::Empty | Statement::Org(_) | Statement::Equ(_, _) => 0,
    }
}

// The address behind a statement at an address.
fn after(at: u32, statement: &Statement<'_>) -> u32
    ensures { result ≡ after at (shown_statement statement.now) }
{
    if let Statement::Org(next) = statement {
        return *next;
    }
    ((at as u128 + size(at, statement)) % 4_294_967_296) as u32
}

// Gives the names of a line at an address.
fn give<'a>(symbols: &mut Symbols<'a>, at: u32, line: &Line<'a>) -> Result<(), AllocError>
    ensures { OnOk result ((w : List ℕ) → names symbols.new w
        ≡ over (named (shown_statement line.now.statement) w) (over (labelled at (shown_label line.now.label) w) (names symbols.old w))) }
{
    if let Some(label) = line.label {
        symbols.insert(label, Symbol::Address(at))?;
    }
    if let Statement::Equ(name, number) = &line.statement {
        symbols.insert(*name, Symbol::Number(*number))?;
    }
    Ok(())
}

impl<'a> Walk<'a> {
    /// Before the first line.
    pub(crate) fn new(alloc: Global) -> Walk<'a>
        ensures { StandsBehind [] result }
    {
        Walk {
            symbols: Symbols::new(alloc),
            number: 0,
            at: 0x8001_0000,
        }
    }
}

// Keeps a statement unless it is empty.
fn keep<'a>(
    items: &mut Vec<Item<'a>>,
    number: u32,
    at: u32,
    statement: Statement<'a>,
) -> Result<(), AllocError>
    ensures { OnOk result (map shown_item items.new.items ≡ map shown_item items.old.items ++ item number at (shown_statement statement.entry)) }
{
    match statement {
        Statement::Empty => Ok(()),
        statement => {
            items.push(Item {
                number,
                at,
                statement,
            })?;
            Ok(())
        }
    }
}

/// Goes over a line that has no fault, and keeps its statement unless it is empty.
pub(crate) fn pass<'a>(
    walk: &mut Walk<'a>,
    items: &mut Vec<Item<'a>>,
    line: Line<'a>,
) -> Result<(), AllocError>
    requires { walk.old.number + 1 < 2 ^ 32 }
    ensures walk { OnOk result ((before : List Shown) (reading : Option (List Words)) → StandsBehind before walk.old
        → line_after (known before) reading ≡ Ok (shown_line line.entry) → StandsBehind (before ++ shown_line line.entry ∷ []) walk.new) }
    ensures number { OnOk result (walk.new.number ≡ walk.old.number + 1) }
    ensures items { OnOk result (map shown_item items.new.items
        ≡ map shown_item items.old.items ++ item (walk.old.number + 1) walk.old.at (shown_statement line.entry.statement)) }
{
    let at = walk.at;
    let number = walk.number + 1;
    give(&mut walk.symbols, at, &line)?;
    walk.number = number;
    walk.at = after(at, &line.statement);
    keep(items, number, at, line.statement)
}
