//! The line of an entry.
ghost use Rattle.std.specs.Prelude.{◌≡◌, ◌≤◌, ◌<◌, ◌+◌, ◌++◌, length};
ghost use Rattle.arrayvec.specs.ArrayVec.{array_vec_len};
ghost use Rattle.psx_sched.specs.Line.{what_text, line};
ghost use Rattle.psx_sched.specs.Accepted.{IsByte};

use crate::schedule::{Entry, What};
use arrayvec::ArrayVec;
use itoa::Buffer;
use psx_text::{hex_digit, put};

/// The bytes of a line. The line of any count and line number has at most 38.
pub type EntryLine = ArrayVec<u8, 40>;

// Appends what reaches the board.
fn put_what(text: &mut EntryLine, what: What)
    requires { array_vec_len text.old ≤ 20 }
    ensures items { text.new.items ≡ text.old.items ++ what_text what }
    ensures len { array_vec_len text.new ≤ array_vec_len text.old + 16 }
    ensures byte { IsByte what }
{
    match what {
        What::Byte(byte) => {
            put(text, b" byte ");
            let number = byte as u32;
            put(text, &[hex_digit(number / 16), hex_digit(number % 16)]);
        }
        What::Line(number) => {
            put(text, b" line ");
            put(text, Buffer::new().format(number).as_bytes());
        }
    }
}

/// The line of an entry, with its line feed.
pub fn line_of(entry: Entry) -> EntryLine
    ensures items { result.items ≡ line entry }
    ensures byte { IsByte entry.what }
{
    let mut text = EntryLine::new();
    put(&mut text, Buffer::new().format(entry.count).as_bytes());
    put_what(&mut text, entry.what);
    text.push(b'\n');
    text
}
