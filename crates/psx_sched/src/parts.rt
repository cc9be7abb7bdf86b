//! What the line of an entry tells. Where no such line stands, each gives something: what is read is compared with its own line.
ghost use Rattle.std.specs.Prelude.{◌≡◌, ◌≤◌, ◌<◌, ℕ, List, ◌++◌, codes, decimal, slice_index};
ghost use Rattle.psx_sched.specs.declared.schedule.Entry.{Entry};
ghost use Rattle.psx_sched.specs.Accepted.{IsTold};
ghost use Rattle.psx_sched.specs.Line.{two_digits, line};

use crate::schedule::{Entry, What};
use psx_text::{byte_at, count_of, digit_value, digits_len, front, skip};

// What reaches the board, by what stands behind a line's count.
fn what_of(fields: &[u8]) -> What
    ensures byte { (b : ℕ) (rest : List ℕ) → b < 256 → fields.now ≡ codes " byte " ++ (two_digits b ++ rest) → result ≡ What.Byte b }
    ensures line { (n : ℕ) (rest : List ℕ) → n ≤ 10 → slice_index rest 0 < 48 → fields.now ≡ codes " line " ++ (decimal n ++ rest)
        → result ≡ What.Line n }
{
    let first = digit_value(byte_at(fields, 6));
    let second = byte_at(fields, 7);
    if byte_at(fields, 1) == b'b' {
        return What::Byte(first * 16 + digit_value(second));
    }
    if second == b'0' {
        return What::Line(10);
    }
    What::Line(first as u32)
}

// The one entry whose line a text can begin with.
pub(crate) fn candidate(text: &[u8]) -> Entry
    ensures { (entry : Entry) (rest : List ℕ) → IsTold entry → text.now ≡ line entry ++ rest → result ≡ entry }
{
    let digits = digits_len(text);
    let count = count_of(front(text, digits));
    let what = what_of(skip(text, digits));
    Entry { count, what }
}
