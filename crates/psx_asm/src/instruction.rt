//! Statements that begin with a mnemonic.
ghost use Rattle.std.specs.Prelude.{◌≡◌, ◌<◌, ◌^◌, option_map, IsTrue, IfSome};
ghost use Rattle.psx_ins.specs.Words.{fits_fields};
ghost use Rattle.psx_asm.specs.Names.{names};
ghost use Rattle.psx_asm.specs.Operands.{ends};
ghost use Rattle.psx_asm.specs.Statement.{Alone, Branches, Jumps, by_shape, load_halves, load, code_number, of_bare, of_one, of_two, of_three, of_shift, of_signed, of_unsigned, of_upper, of_place, of_coprocessor, of_code, of_branch_always, of_branch_one, of_branch_two, of_jump, of_load, of_address};
ghost use Rattle.psx_asm.specs.Shown.{shown, shown_value, shown_statement};

use crate::number::{below, low_word, signed_16};
use crate::operand::{base, number, number_below, register, signed_number, value};
use crate::piece::Piece;
use crate::shape::Shape;
use crate::statement::{Code, General, Statement, Value};
use crate::symbols::Symbols;
use crate::table::{
    R0, bare, branch_always, branch_one, branch_two, code, coprocessor, jump, one, place, shift,
    signed, three, two, unsigned, upper,
};
use psx_ins::ins::Ins;
use psx_ins::reg::Reg;

// The statement of an instruction, where no pieces are left.
fn alone<'a>(rest: &[Piece<'a>], ins: Option<Ins>) -> Option<Statement<'a>>
    requires { IfSome ins (λ i. IsTrue (fits_fields i)) }
    ensures { option_map shown_statement result ≡ ends (shown rest.now) (option_map Alone ins) }
{
    match (rest, ins) {
        ([], Some(ins)) => Some(Statement::Alone(Code { ins })),
        _ => None,
    }
}

// A register gets 32 bits.
fn load_halves<'a>(t: Reg, word: u32) -> Statement<'a>
    requires { t.0 < 32 }
    ensures { shown_statement result ≡ load_halves t word }
{
    let upper = (word / 65_536) as u16;
    let lower = (word % 65_536) as u16;
    let first = Ins::LUI { t, imm: upper };
    if lower == 0 {
        return Statement::Alone(Code { ins: first });
    }
    let second = Ins::ORI {
        s: t,
        t,
        imm: lower,
    };
    Statement::Pair(Code { ins: first }, Code { ins: second })
}

// A register gets a number.
fn load<'a>(t: Reg, number: i64) -> Statement<'a>
    requires { t.0 < 32 }
    ensures { shown_statement result ≡ load t number }
{
    if let Some(imm) = signed_16(number) {
        let ins = Ins::ADDIU { s: R0, t, imm };
        return Statement::Alone(Code { ins });
    }
    match below(65_536, number) {
        Some(imm) => {
            let imm = imm as u16;
            let ins = Ins::ORI { s: R0, t, imm };
            Statement::Alone(Code { ins })
        }
        None => load_halves(t, low_word(number as i128)),
    }
}

// Nothing.
#[tactic(auto, unfolding(crate::specs::Statement::of_bare))]
fn of_bare<'a>(word: &[u8], pieces: &[Piece<'a>]) -> Option<Statement<'a>>
    ensures { option_map shown_statement result ≡ of_bare word.now (shown pieces.now) }
{
    alone(pieces, bare(word))
}

// A register.
#[tactic(auto, unfolding(crate::specs::Statement::of_one))]
fn of_one<'a>(word: &[u8], pieces: &[Piece<'a>]) -> Option<Statement<'a>>
    ensures { option_map shown_statement result ≡ of_one word.now (shown pieces.now) }
{
    let (a, rest) = register(pieces)?;
    alone(rest, one(word, a))
}

// Two registers.
#[tactic(auto, unfolding(crate::specs::Statement::of_two))]
fn of_two<'a>(word: &[u8], pieces: &[Piece<'a>]) -> Option<Statement<'a>>
    ensures { option_map shown_statement result ≡ of_two word.now (shown pieces.now) }
{
    let (a, rest) = register(pieces)?;
    let (b, rest) = register(rest)?;
    alone(rest, two(word, a, b))
}

// Three registers.
#[tactic(auto, unfolding(crate::specs::Statement::of_three))]
fn of_three<'a>(word: &[u8], pieces: &[Piece<'a>]) -> Option<Statement<'a>>
    ensures { option_map shown_statement result ≡ of_three word.now (shown pieces.now) }
{
    let (a, rest) = register(pieces)?;
    let (b, rest) = register(rest)?;
    let (c, rest) = register(rest)?;
    alone(rest, three(word, a, b, c))
}

// Two registers and a shift.
#[tactic(auto, unfolding(crate::specs::Statement::of_shift))]
fn of_shift<'a>(known: &Symbols<'_>, word: &[u8], pieces: &[Piece<'a>]) -> Option<Statement<'a>>
    ensures { option_map shown_statement result ≡ of_shift (names known.now) word.now (shown pieces.now) }
{
    let (a, rest) = register(pieces)?;
    let (b, rest) = register(rest)?;
    let (n, rest) = number_below(32, known, rest)?;
    alone(rest, shift(word, a, b, n))
}

// Two registers and 16 bits with a sign.
#[tactic(auto, unfolding(crate::specs::Statement::of_signed))]
fn of_signed<'a>(known: &Symbols<'_>, word: &[u8], pieces: &[Piece<'a>]) -> Option<Statement<'a>>
    ensures { option_map shown_statement result ≡ of_signed (names known.now) word.now (shown pieces.now) }
{
    let (a, rest) = register(pieces)?;
    let (b, rest) = register(rest)?;
    let (imm, rest) = signed_number(known, rest)?;
    alone(rest, signed(word, a, b, imm))
}

// Two registers and 16 bits without a sign.
#[tactic(auto, unfolding(crate::specs::Statement::of_unsigned))]
fn of_unsigned<'a>(known: &Symbols<'_>, word: &[u8], pieces: &[Piece<'a>]) -> Option<Statement<'a>>
    ensures { option_map shown_statement result ≡ of_unsigned (names known.now) word.now (shown pieces.now) }
{
    let (a, rest) = register(pieces)?;
    let (b, rest) = register(rest)?;
    let (n, rest) = number_below(65_536, known, rest)?;
    alone(rest, unsigned(word, a, b, n as u16))
}

// A register and 16 bits without a sign.
#[tactic(auto, unfolding(crate::specs::Statement::of_upper))]
fn of_upper<'a>(known: &Symbols<'_>, word: &[u8], pieces: &[Piece<'a>]) -> Option<Statement<'a>>
    ensures { option_map shown_statement result ≡ of_upper (names known.now) word.now (shown pieces.now) }
{
    let (a, rest) = register(pieces)?;
    let (n, rest) = number_below(65_536, known, rest)?;
    alone(rest, upper(word, a, n as u16))
}

// A register and a place in memory.
#[tactic(auto, unfolding(crate::specs::Statement::of_place))]
fn of_place<'a>(known: &Symbols<'_>, word: &[u8], pieces: &[Piece<'a>]) -> Option<Statement<'a>>
    ensures { option_map shown_statement result ≡ of_place (names known.now) word.now (shown pieces.now) }
{
    let (a, rest) = register(pieces)?;
    let (imm, rest) = signed_number(known, rest)?;
    let (s, rest) = base(rest)?;
    alone(rest, place(word, a, imm, s))
}

// A register and a register of coprocessor 0.
#[tactic(auto, unfolding(crate::specs::Statement::of_coprocessor))]
fn of_coprocessor<'a>(
    known: &Symbols<'_>,
    word: &[u8],
    pieces: &[Piece<'a>],
) -> Option<Statement<'a>>
    ensures { option_map shown_statement result ≡ of_coprocessor (names known.now) word.now (shown pieces.now) }
{
    let (a, rest) = register(pieces)?;
    let (n, rest) = number_below(32, known, rest)?;
    alone(rest, coprocessor(word, a, Reg(n)))
}

// The number behind syscall or break.
fn code_number<'p, 'a>(
    known: &Symbols<'_>,
    pieces: &'p [Piece<'a>],
) -> Option<(u32, &'p [Piece<'a>])>
    ensures value { option_map (λ x. (x.0, shown x.1.now)) result ≡ code_number (names known.now) (shown pieces.now) }
    ensures small { IfSome result (λ x. x.0 < 2 ^ 20) }
{
    match pieces {
        [] => Some((0, pieces)),
        _ => number_below(1_048_576, known, pieces),
    }
}

// 20 bits.
#[tactic(auto, unfolding(crate::specs::Statement::of_code))]
fn of_code<'a>(known: &Symbols<'_>, word: &[u8], pieces: &[Piece<'a>]) -> Option<Statement<'a>>
    ensures { option_map shown_statement result ≡ of_code (names known.now) word.now (shown pieces.now) }
{
    let (n, rest) = code_number(known, pieces)?;
    alone(rest, code(word, n))
}

// The statement of a branch, where no pieces are left.
fn branching<'a>(rest: &[Piece<'a>], ins: Option<Ins>, target: Value<'a>) -> Option<Statement<'a>>
    requires { IfSome ins (λ i. IsTrue (fits_fields i)) }
    ensures { option_map shown_statement result ≡ ends (shown rest.now) (option_map (λ i. Branches i (shown_value target.entry)) ins) }
{
    match (rest, ins) {
        ([], Some(ins)) => Some(Statement::Branch(Code { ins }, target)),
        _ => None,
    }
}

// A branch's target.
#[tactic(auto, unfolding(crate::specs::Statement::of_branch_always))]
fn of_branch_always<'a>(word: &[u8], pieces: &[Piece<'a>]) -> Option<Statement<'a>>
    ensures { option_map shown_statement result ≡ of_branch_always word.now (shown pieces.now) }
{
    let (target, rest) = value(pieces)?;
    branching(rest, branch_always(word), target)
}

// A register and a branch's target.
#[tactic(auto, unfolding(crate::specs::Statement::of_branch_one))]
fn of_branch_one<'a>(word: &[u8], pieces: &[Piece<'a>]) -> Option<Statement<'a>>
    ensures { option_map shown_statement result ≡ of_branch_one word.now (shown pieces.now) }
{
    let (a, rest) = register(pieces)?;
    let (target, rest) = value(rest)?;
    branching(rest, branch_one(word, a), target)
}

// Two registers and a branch's target.
#[tactic(auto, unfolding(crate::specs::Statement::of_branch_two))]
fn of_branch_two<'a>(word: &[u8], pieces: &[Piece<'a>]) -> Option<Statement<'a>>
    ensures { option_map shown_statement result ≡ of_branch_two word.now (shown pieces.now) }
{
    let (a, rest) = register(pieces)?;
    let (b, rest) = register(rest)?;
    let (target, rest) = value(rest)?;
    branching(rest, branch_two(word, a, b), target)
}

// The statement of a jump, where no pieces are left.
fn jumping<'a>(rest: &[Piece<'a>], ins: Option<Ins>, target: Value<'a>) -> Option<Statement<'a>>
    requires { IfSome ins (λ i. IsTrue (fits_fields i)) }
    ensures { option_map shown_statement result ≡ ends (shown rest.now) (option_map (λ i. Jumps i (shown_value target.entry)) ins) }
{
    match (rest, ins) {
        ([], Some(ins)) => Some(Statement::Jump(Code { ins }, target)),
        _ => None,
    }
}

// A jump's target.
#[tactic(auto, unfolding(crate::specs::Statement::of_jump))]
fn of_jump<'a>(word: &[u8], pieces: &[Piece<'a>]) -> Option<Statement<'a>>
    ensures { option_map shown_statement result ≡ of_jump word.now (shown pieces.now) }
{
    let (target, rest) = value(pieces)?;
    jumping(rest, jump(word), target)
}

// A register, and a number that it gets.
#[tactic(auto, unfolding(crate::specs::Statement::of_load))]
fn of_load<'a>(known: &Symbols<'_>, pieces: &[Piece<'a>]) -> Option<Statement<'a>>
    ensures { option_map shown_statement result ≡ of_load (names known.now) (shown pieces.now) }
{
    let (a, rest) = register(pieces)?;
    let (found, rest) = number(known, rest)?;
    match rest {
        [] => Some(load(a, found)),
        _ => None,
    }
}

// A register, and a value that it gets.
#[tactic(auto, unfolding(crate::specs::Statement::of_address))]
fn of_address<'a>(pieces: &[Piece<'a>]) -> Option<Statement<'a>>
    ensures { option_map shown_statement result ≡ of_address (shown pieces.now) }
{
    let (a, rest) = register(pieces)?;
    let (found, rest) = value(rest)?;
    match rest {
        [] => Some(Statement::Address(General { reg: a }, found)),
        _ => None,
    }
}

/// The statement of a mnemonic's operands, where they are of its kinds and in its ranges.
pub(crate) fn by_shape<'a>(
    known: &Symbols<'_>,
    word: &[u8],
    pieces: &[Piece<'a>],
    shape: Shape,
) -> Option<Statement<'a>>
    ensures { option_map shown_statement result ≡ by_shape (names known.now) word.now (shown pieces.now) shape }
{
    match shape {
        Shape::Bare => of_bare(word, pieces),
        Shape::One => of_one(word, pieces),
        Shape::Two => of_two(word, pieces),
        Shape::Three => of_three(word, pieces),
        Shape::Shift => of_shift(known, word, pieces),
        Shape::Signed => of_signed(known, word, pieces),
        Shape::Unsigned => of_unsigned(known, word, pieces),
        Shape::Upper => of_upper(known, word, pieces),
        Shape::Place => of_place(known, word, pieces),
        Shape::Coprocessor => of_coprocessor(known, word, pieces),
        Shape::Code => of_code(known, word, pieces),
        Shape::BranchAlways => of_branch_always(word, pieces),
        Shape::BranchOne => of_branch_one(word, pieces),
        Shape::BranchTwo => of_branch_two(word, pieces),
        Shape::Jump => of_jump(word, pieces),
        Shape::LoadNumber => of_load(known, pieces),
        Shape::LoadAddress => of_address(pieces),
    }
}
