// The words of one node.
ghost use Rattle.std.specs.Prelude.{◌≡◌, ◌+◌, ◌<◌, ◌≤◌, ◌^◌, IsTrue, IfSome, IfNone, All, [], ◌∷◌, reverse, slice_set};
ghost use Rattle.psx_flow.specs.Well.{test_fits};
ghost use Rattle.psx_flow.specs.Nodes.{node_fits};
ghost use Rattle.psx_flow.specs.Lowered.{branch_by as branch_by_test, opposite as opposite_of, target_of};
ghost use Rattle.psx_flow.specs.Emit.{BracketFits, so_far, branch_word, with_slot, pushed, emitted};

use crate::nesting::DEEPEST;
use crate::node::{Node, Test};
use arrayvec::ArrayVec;
use psx_ins::encode;
use psx_ins::ins::Ins;
use psx_ins::reg::Reg;

// A bracket that is open: the place of its branch, and the branch's test.
#[derive(Clone, Copy)]
pub enum Bracket {
    Choice(usize, Test),
    Turn(usize, Test),
}

// The branch that is always taken.
const ALWAYS: Test = Test::Same(Reg(0), Reg(0));

impl Default for Bracket {
    fn default() -> Bracket {
        Bracket::Choice(0, ALWAYS)
    }
}

// The brackets that are open, the innermost last.
pub type Brackets = ArrayVec<Bracket, DEEPEST>;

fn opposite(test: Test) -> Test
    ensures { result ≡ opposite_of test }
{
    match test {
        Test::Same(a, b) => Test::Differ(a, b),
        Test::Differ(a, b) => Test::Same(a, b),
        Test::NotAbove(a) => Test::Above(a),
        Test::Above(a) => Test::NotAbove(a),
        Test::Negative(a) => Test::NotNegative(a),
        Test::NotNegative(a) => Test::Negative(a),
    }
}

// The branch where a test holds, by words from its slot.
fn branch_by(test: Test, imm: u16) -> Ins
    ensures { result ≡ branch_by_test test imm }
{
    match test {
        Test::Same(s, t) => Ins::BEQ { s, t, imm },
        Test::Differ(s, t) => Ins::BNE { s, t, imm },
        Test::NotAbove(s) => Ins::BLEZ { s, imm },
        Test::Above(s) => Ins::BGTZ { s, imm },
        Test::Negative(s) => Ins::BLTZ { s, imm },
        Test::NotNegative(s) => Ins::BGEZ { s, imm },
    }
}

// The word of the branch at a place to another, where a test holds. Places are counted in words.
fn branch(test: Test, from: usize, to: usize) -> u32
    requires places { (from < 2 ^ 40) × (to < 2 ^ 41) }
    requires test { IsTrue (test_fits test) }
    ensures { result ≡ branch_word test from to }
{
    let words = (to + 0x1_0000).saturating_sub(from + 1) % 0x1_0000;
    encode(branch_by(test, words as u16))
}

// The 26 bits of a jump to an address.
fn target(to: u32) -> u32
    ensures { result ≡ target_of to }
{
    to / 4 % 0x400_0000
}

// Writes a word, where it has a place, as all words of a listing have.
fn put(words: &mut [u32], at: usize, word: u32)
    ensures { words.new ≡ slice_set words.old at word }
{
    if at < words.len() {
        words[at] = word;
    }
}

// Writes a word, and a nop in its slot.
fn put_with_slot(words: &mut [u32], at: usize, word: u32)
    requires { at < 2 ^ 40 }
    ensures { words.new ≡ with_slot words.old at word }
{
    put(words, at, word);
    put(words, at + 1, 0);
}

// Opens a bracket, where there is room, as in a listing there is.
fn open(brackets: &mut Brackets, bracket: Bracket)
    requires bracket { BracketFits bracket }
    requires others { All BracketFits brackets.old.items }
    ensures value { reverse brackets.new.items ≡ pushed bracket (reverse brackets.old.items) }
    ensures fit { All BracketFits brackets.new.items }
{
    if !brackets.is_full() {
        brackets.push(bracket);
    }
}

// Closes the innermost bracket.
fn close(brackets: &mut Brackets) -> Option<Bracket>
    requires { All BracketFits brackets.old.items }
    ensures some { IfSome result (λ b. (reverse brackets.old.items ≡ b ∷ reverse brackets.new.items) × BracketFits b) }
    ensures none { IfNone result (reverse brackets.old.items ≡ []) }
    ensures same { IfNone result (brackets.new ≡ brackets.old) }
    ensures fit { All BracketFits brackets.new.items }
{
    brackets.pop()
}

// The branch of an If goes behind its Other, and the Other's own branch, which skips what follows, comes with the End.
fn emit_other(words: &mut [u32], brackets: &mut Brackets, at: usize) -> usize
    requires small { at < 2 ^ 40 }
    requires open { All BracketFits brackets.old.items }
    ensures value { so_far words.new brackets.new.items result ≡ emitted Node.Other (so_far words.old brackets.old.items at) }
    ensures near { result ≤ at + 2 }
    ensures fit { All BracketFits brackets.new.items }
{
    match close(brackets) {
        Some(Bracket::Choice(from, test)) => {
            put(words, from, branch(test, from, at + 2));
            put_with_slot(words, at, 0);
            open(brackets, Bracket::Choice(at, ALWAYS));
            at + 2
        }
        Some(Bracket::Turn(_, _)) | None => at,
    }
}

// The branch of a bracket goes behind its End. The End of a While is a branch back to the While.
fn emit_end(words: &mut [u32], brackets: &mut Brackets, at: usize) -> usize
    requires small { at < 2 ^ 40 }
    requires open { All BracketFits brackets.old.items }
    ensures value { so_far words.new brackets.new.items result ≡ emitted Node.End (so_far words.old brackets.old.items at) }
    ensures near { result ≤ at + 2 }
    ensures fit { All BracketFits brackets.new.items }
{
    match close(brackets) {
        Some(Bracket::Choice(from, test)) => {
            put(words, from, branch(test, from, at));
            at
        }
        Some(Bracket::Turn(first, test)) => {
            put(words, first, branch(test, first, at + 2));
            put_with_slot(words, at, branch(ALWAYS, at, first));
            at + 2
        }
        None => at,
    }
}

// Writes the words of a node at a place, and gives the next one. A bracket's branch is a nop until its end comes.
pub fn emit(node: Node, words: &mut [u32], brackets: &mut Brackets, at: usize) -> usize
    requires node { IsTrue (node_fits node) }
    requires small { at < 2 ^ 40 }
    requires open { All BracketFits brackets.old.items }
    ensures value { so_far words.new brackets.new.items result ≡ emitted node (so_far words.old brackets.old.items at) }
    ensures near { result ≤ at + 2 }
    ensures fit { All BracketFits brackets.new.items }
{
    match node {
        Node::Op(ins) => {
            put(words, at, encode(ins));
            at + 1
        }
        Node::If(test) => {
            put_with_slot(words, at, 0);
            open(brackets, Bracket::Choice(at, opposite(test)));
            at + 2
        }
        Node::While(test) => {
            put_with_slot(words, at, 0);
            open(brackets, Bracket::Turn(at, opposite(test)));
            at + 2
        }
        Node::Other => emit_other(words, brackets, at),
        Node::End => emit_end(words, brackets, at),
        Node::Call(to) => {
            put_with_slot(words, at, encode(Ins::JAL { target: target(to) }));
            at + 2
        }
        Node::Jump(to) => {
            put_with_slot(words, at, encode(Ins::J { target: target(to) }));
            at + 2
        }
        Node::JumpTo(s) => {
            put_with_slot(words, at, encode(Ins::JR { s }));
            at + 2
        }
    }
}
