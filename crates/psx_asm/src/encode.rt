//! The bytes of a statement at an address, once each name is known.
ghost use Rattle.std.specs.Prelude.{◌≡◌, ◌<◌, ◌%◌, ◌^◌, ◌++◌, Ok, replicate, IfOk, OnOk, IfSome};
ghost use Rattle.psx_ins.specs.Words.{fits_fields};
ghost use Rattle.psx_asm.specs.Failing.{Gives, IsNoLabel};
ghost use Rattle.psx_asm.specs.Names.{names};
ghost use Rattle.psx_asm.specs.Encoding.{resolved, resolved_word, missing, aligned, bytes_of, code_of, branch_bits, jump_bits, address_code, element, value_bits, elements, encoded, of_branch, of_jump, of_address, of_values};
ghost use Rattle.psx_asm.specs.Numbers.{low_word};
ghost use Rattle.psx_asm.specs.Shown.{shown_value, shown_values, shown_label, shown_statement};

use crate::fault::{AsmFault, Failure};
use crate::line::{padding, width_of};
use crate::number::{either_sign, low_word};
use crate::object::Name;
use crate::shape::Width;
use crate::statement::{Code, General, Statement, Value};
use crate::symbol::Symbol;
use crate::symbols::Symbols;
use crate::table::{branch_to, jump_to};
use psx_ins::encode;
use psx_ins::ins::Ins;
use std::alloc::{AllocError, Global};

// The fault of a value that doesn't fit.
fn range(value: u32) -> Failure
    ensures { result ≡ Failure.Fault (AsmFault.Range value) }
{
    Failure::Fault(AsmFault::Range { value })
}

// The fault of a name that there isn't.
fn no_label(alloc: Global, name: &[u8]) -> Failure
    ensures { IsNoLabel name.now result }
{
    match Name::of(alloc, name) {
        Ok(label) => Failure::Fault(AsmFault::NoLabel { label }),
        Err(_) => Failure::Memory,
    }
}

// The number that a value stands for.
fn resolved(alloc: Global, known: &Symbols<'_>, value: Value<'_>) -> Result<i128, Failure>
    ensures { Gives (λ n. n) result (resolved (names known.now) (shown_value value.entry)) }
{
    match value {
        Value::Number(number) => Ok(number as i128),
        Value::Sum(name, plus) => match known.get(name) {
            Some(Symbol::Number(number)) => Ok(number as i128 + plus as i128),
            Some(Symbol::Address(at)) => Ok(at as i128 + plus as i128),
            None => Err(no_label(alloc, name)),
        },
    }
}

// The low 32 bits of the number that a value stands for.
fn resolved_word(alloc: Global, known: &Symbols<'_>, value: Value<'_>) -> Result<u32, Failure>
    ensures { Gives (λ w. w) result (resolved_word (names known.now) (shown_value value.entry)) }
{
    Ok(low_word(resolved(alloc, known, value)?))
}

// The first name of values that there isn't.
fn missing<'a>(known: &Symbols<'_>, values: &[Value<'a>]) -> Option<&'a [u8]>
    ensures { shown_label result ≡ missing (names known.now) (shown_values values.now) }
{
    for value in values {
        if let Value::Sum(name, _) = value {
            if known.get(name).is_none() {
                return Some(*name);
            }
        }
    }
    None
}

// An address that is a multiple.
fn aligned(multiple: u32, at: u32) -> Result<(), Failure>
    requires { 0 < multiple }
    ensures given { Gives (λ _. at) result (aligned multiple at (Ok at)) }
    ensures multiple { OnOk result (at % multiple ≡ 0) }
{
    if at % multiple == 0 {
        return Ok(());
    }
    Err(range(at))
}

// Appends a number in so many bytes, the lowest first.
fn put(bytes: &mut Vec<u8>, width: Width, number: u32) -> Result<(), AllocError>
    ensures { OnOk result (bytes.new.items ≡ bytes.old.items ++ bytes_of width number) }
{
    bytes.push((number % 256) as u8)?;
    if width == Width::Byte {
        return Ok(());
    }
    bytes.push((number / 256 % 256) as u8)?;
    if width == Width::Half {
        return Ok(());
    }
    bytes.push((number / 65_536 % 256) as u8)?;
    bytes.push((number / 16_777_216) as u8)?;
    Ok(())
}

// The bytes of an instruction.
fn code_of(alloc: Global, code: Code) -> Result<Vec<u8>, AllocError>
    ensures { IfOk result (λ v. v.items ≡ code_of code.ins) }
{
    let mut bytes = Vec::new(alloc);
    put(&mut bytes, Width::Word, encode(code.ins))?;
    Ok(bytes)
}

// The bytes of two instructions.
fn pair_of(alloc: Global, first: Code, second: Code) -> Result<Vec<u8>, AllocError>
    ensures { IfOk result (λ v. v.items ≡ code_of first.ins ++ code_of second.ins) }
{
    let mut bytes = code_of(alloc, first)?;
    put(&mut bytes, Width::Word, encode(second.ins))?;
    Ok(bytes)
}

// The 16 bits of a branch from its slot to a target.
fn branch_bits(slot: u64, target: u32) -> Option<u16>
    requires { slot % 4 ≡ 0 }
    ensures { result ≡ branch_bits slot target }
{
    let target = target as u64;
    if target % 4 != 0 {
        return None;
    }
    if slot <= target {
        if target - slot <= 131_068 {
            return Some(((target - slot) / 4) as u16);
        }
        return None;
    }
    if slot - target <= 131_072 {
        return Some((65_536 - (slot - target) / 4) as u16);
    }
    None
}

// The 26 bits of a jump to a target in the 256 MB of its slot.
fn jump_bits(slot: u64, target: u32) -> Option<u32>
    ensures value { result ≡ jump_bits slot target }
    ensures small { IfSome result (λ n. n < 2 ^ 26) }
{
    if target % 4 == 0 && (target as u64) / 268_435_456 == slot % 4_294_967_296 / 268_435_456 {
        return Some(target % 268_435_456 / 4);
    }
    None
}

// A branch at an address.
#[tactic(auto, unfolding(crate::specs::Encoding::of_branch))]
fn of_branch(
    alloc: Global,
    known: &Symbols<'_>,
    at: u32,
    code: Code,
    value: Value<'_>,
) -> Result<Vec<u8>, Failure>
    ensures { Gives (λ v. v.items) result (of_branch (names known.now) at code.ins (shown_value value.entry)) }
{
    let target = resolved_word(alloc, known, value)?;
    aligned(4, at)?;
    match branch_bits(at as u64 + 4, target) {
        Some(bits) => {
            let ins = branch_to(code.ins, bits);
            Ok(code_of(alloc, Code { ins })?)
        }
        None => Err(range(target)),
    }
}

// A jump at an address.
#[tactic(auto, unfolding(crate::specs::Encoding::of_jump))]
fn of_jump(
    alloc: Global,
    known: &Symbols<'_>,
    at: u32,
    code: Code,
    value: Value<'_>,
) -> Result<Vec<u8>, Failure>
    ensures { Gives (λ v. v.items) result (of_jump (names known.now) at code.ins (shown_value value.entry)) }
{
    let target = resolved_word(alloc, known, value)?;
    aligned(4, at)?;
    match jump_bits(at as u64 + 4, target) {
        Some(bits) => {
            let ins = jump_to(code.ins, bits);
            Ok(code_of(alloc, Code { ins })?)
        }
        None => Err(range(target)),
    }
}

// The instructions at an address by which a register gets a value.
#[tactic(auto, unfolding(crate::specs::Encoding::of_address))]
fn of_address(
    alloc: Global,
    known: &Symbols<'_>,
    at: u32,
    general: General,
    value: Value<'_>,
) -> Result<Vec<u8>, Failure>
    ensures { Gives (λ v. v.items) result (of_address (names known.now) at general.reg (shown_value value.entry)) }
{
    let word = resolved_word(alloc, known, value)?;
    aligned(4, at)?;
    let t = general.reg;
    let imm = (word / 65_536) as u16;
    let first = Ins::LUI { t, imm };
    let imm = (word % 65_536) as u16;
    let second = Ins::ORI { s: t, t, imm };
    Ok(pair_of(alloc, Code { ins: first }, Code { ins: second })?)
}

// The bits of a value of a list.
fn element(width: Width, number: i128) -> Option<u32>
    ensures { result ≡ element width number }
{
    match width {
        Width::Byte => either_sign(256, number),
        Width::Half => either_sign(65_536, number),
        Width::Word => Some(low_word(number)),
    }
}

// The bits of a value of a list, once its name is known.
fn value_bits(
    alloc: Global,
    known: &Symbols<'_>,
    width: Width,
    value: Value<'_>,
) -> Result<u32, Failure>
    ensures { Gives (λ n. n) result (value_bits (names known.now) width (shown_value value.entry)) }
{
    let number = resolved(alloc, known, value)?;
    match element(width, number) {
        Some(bits) => Ok(bits),
        None => Err(range(low_word(number))),
    }
}

// The bytes of a list's values, or the first value that doesn't fit.
fn elements(
    alloc: Global,
    known: &Symbols<'_>,
    width: Width,
    values: &[Value<'_>],
) -> Result<Vec<u8>, Failure>
    ensures { Gives (λ v. v.items) result (elements (names known.now) width (shown_values values.now)) }
{
    let mut bytes = Vec::new(alloc);
    for value in values {
        let bits = value_bits(alloc, known, width, *value)?;
        put(&mut bytes, width, bits)?;
    }
    Ok(bytes)
}

// Values at an address.
fn of_values(
    alloc: Global,
    known: &Symbols<'_>,
    at: u32,
    width: Width,
    values: &[Value<'_>],
) -> Result<Vec<u8>, Failure>
    ensures { Gives (λ v. v.items) result (of_values (names known.now) at width (shown_values values.now)) }
{
    if let Some(name) = missing(known, values) {
        return Err(no_label(alloc, name));
    }
    aligned(width_of(width), at)?;
    elements(alloc, known, width, values)
}

/// So many zeros.
pub(crate) fn zeros(alloc: Global, count: u32) -> Result<Vec<u8>, AllocError>
    ensures { IfOk result (λ v. v.items ≡ replicate count 0) }
{
    vec![in alloc; 0; count as usize]
}

/// The bytes of a statement at an address, or its first fault but for the window's.
pub(crate) fn encoded(
    alloc: Global,
    known: &Symbols<'_>,
    at: u32,
    statement: &Statement<'_>,
) -> Result<Vec<u8>, Failure>
    ensures { Gives (λ v. v.items) result (encoded (names known.now) at (shown_statement statement.now)) }
{
    match statement {
        Statement::Alone(code) => {
            aligned(4, at)?;
            Ok(code_of(alloc, *code)?)
        }
        Statement::Pair(first, second) => {
            aligned(4, at)?;
            Ok(pair_of(alloc, *first, *second)?)
        }
        Statement::Branch(code, target) => of_branch(alloc, known, at, *code, *target),
        Statement::Jump(code, target) => of_jump(alloc, known, at, *code, *target),
        Statement::Address(general, value) => of_address(alloc, known, at, *general, *value),
        Statement::Values(width, values) => of_values(alloc, known, at, *width, values.as_slice()),
        Statement::Text(bytes) => Ok(Vec::from_slice(alloc, bytes.as_slice())?),
        Statement::Space(count) => Ok(zeros(alloc, *count)?),
        Statement::Align(last) => Ok(zeros(alloc, padding(*last, at))?),
        Statement::Empty | Statement::Org(_) | Statement::Equ(_, _) => Ok(Vec::new(alloc)),
    }
}
