//! Which operands a mnemonic or a directive takes.
ghost use Rattle.std.specs.Prelude.{◌≡◌};
ghost use Rattle.psx_asm.specs.Shapes.{shape_of, shape_of_others};
ghost use Rattle.psx_asm.specs.Directives.{directive_of};

use crate::shape::{Directive, Shape, Width};
use crate::table::{
    R0, bare, branch_always, branch_one, branch_two, code, coprocessor, is, jump, one, place,
    shift, signed, three, two, unsigned, upper,
};

/// Which operands a mnemonic takes, by the table that has it.
pub(crate) fn shape_of(word: &[u8]) -> Option<Shape>
    ensures { result ≡ shape_of word.now }
{
    if bare(word).is_some() {
        return Some(Shape::Bare);
    }
    if one(word, R0).is_some() {
        return Some(Shape::One);
    }
    if two(word, R0, R0).is_some() {
        return Some(Shape::Two);
    }
    if three(word, R0, R0, R0).is_some() {
        return Some(Shape::Three);
    }
    if shift(word, R0, R0, 0).is_some() {
        return Some(Shape::Shift);
    }
    if signed(word, R0, R0, 0).is_some() {
        return Some(Shape::Signed);
    }
    if unsigned(word, R0, R0, 0).is_some() {
        return Some(Shape::Unsigned);
    }
    if upper(word, R0, 0).is_some() {
        return Some(Shape::Upper);
    }
    if place(word, R0, 0, R0).is_some() {
        return Some(Shape::Place);
    }
    shape_of_others(word)
}

// The same of the other tables.
fn shape_of_others(word: &[u8]) -> Option<Shape>
    ensures { result ≡ shape_of_others word.now }
{
    if coprocessor(word, R0, R0).is_some() {
        return Some(Shape::Coprocessor);
    }
    if code(word, 0).is_some() {
        return Some(Shape::Code);
    }
    if branch_always(word).is_some() {
        return Some(Shape::BranchAlways);
    }
    if branch_one(word, R0).is_some() {
        return Some(Shape::BranchOne);
    }
    if branch_two(word, R0, R0).is_some() {
        return Some(Shape::BranchTwo);
    }
    if jump(word).is_some() {
        return Some(Shape::Jump);
    }
    if is(word, "li") {
        return Some(Shape::LoadNumber);
    }
    if is(word, "la") {
        return Some(Shape::LoadAddress);
    }
    None
}

/// What a directive does, where it is there.
pub(crate) fn directive_of(word: &[u8]) -> Option<Directive>
    ensures { result ≡ directive_of word.now }
{
    if is(word, ".word") {
        return Some(Directive::Values(Width::Word));
    }
    if is(word, ".half") {
        return Some(Directive::Values(Width::Half));
    }
    if is(word, ".byte") {
        return Some(Directive::Values(Width::Byte));
    }
    if is(word, ".ascii") {
        return Some(Directive::Ascii);
    }
    if is(word, ".asciiz") {
        return Some(Directive::AsciiZero);
    }
    if is(word, ".space") {
        return Some(Directive::Space);
    }
    if is(word, ".align") {
        return Some(Directive::Align);
    }
    if is(word, ".org") {
        return Some(Directive::Org);
    }
    if is(word, ".equ") {
        return Some(Directive::Equ);
    }
    None
}
