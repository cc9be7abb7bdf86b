//! The workload of so many rounds.
ghost use Rattle.std.specs.Prelude.{◌≡◌, ◌≤◌, ◌<◌, ◌∷◌, ◌++◌, ◌^◌, [], true, length, flat_map, IfOk};
ghost use Rattle.byteorder.specs.Endian.{little_bytes};
ghost use Rattle.psx_exe.specs.Reading.{IsReadable};
ghost use Rattle.psx_gen.specs.Workload.{text, program, blanks};
ghost use Rattle.psx_gen.specs.Spaced.{spaced};
ghost use Rattle.psx_gen.specs.declared.words.TheConstants.{WORDS};

use crate::words::WORDS;
use byteorder::{ByteOrder, LittleEndian};
use psx_base::Memory;
use psx_exe::{Exe, Text};
use psx_sched::{Entry, Schedule, What};
use std::alloc::{AllocError, Global};

/// Where the program stands and begins.
const BEGIN: u32 = 0x8001_0000;

/// The count of the first vertical blank.
const FIRST: u64 = 500_000;

/// How many steps are between two.
const BETWEEN: u64 = 10_000;

// The words of the program.
fn words(alloc: Global, rounds: u32) -> Result<Vec<u32>, AllocError>
    ensures { IfOk result (λ v. v.items ≡ WORDS ++ rounds ∷ []) }
{
    let mut words = Vec::from_slice(alloc, &WORDS)?;
    words.push(rounds)?;
    Ok(words)
}

// The bytes of words, each word with its lowest byte first.
fn bytes_of(alloc: Global, words: &[u32]) -> Result<Vec<u8>, AllocError>
    requires { length words.now < 2 ^ 32 }
    ensures { IfOk result (λ v. v.items ≡ flat_map (little_bytes 4) words.now) }
{
    let mut bytes = vec![in alloc; 0u8; 4 * words.len()]?;
    LittleEndian::write_u32_into(words, &mut bytes);
    Ok(bytes)
}

// The bytes of the program.
fn bytes(alloc: Global, rounds: u32) -> Result<Vec<u8>, AllocError>
    ensures { IfOk result (λ v. v.items ≡ text rounds) }
{
    let words = words(alloc, rounds)?;
    bytes_of(alloc, &words)
}

// The program.
fn exe(alloc: Global, rounds: u32) -> Result<Exe, Memory>
    ensures { IfOk result (λ exe. exe ≡ program rounds) }
{
    let Ok(bytes) = bytes(alloc, rounds) else {
        return Err(Memory);
    };
    Ok(Exe {
        pc: BEGIN,
        gp: 0,
        dest: BEGIN,
        fill_start: 0,
        fill_size: 0,
        sp_base: 0,
        sp_offset: 0,
        text: Text::from_slice(alloc, &bytes)?,
    })
}

// The schedule.
fn schedule(alloc: Global, rounds: u32) -> Result<Schedule, Memory>
    requires { rounds ≤ 1000 }
    ensures { IfOk result (λ schedule. schedule ≡ blanks rounds) }
{
    let mut schedule = Schedule::new(alloc);
    for place in 0..rounds {
        schedule.push(Entry {
            count: FIRST + BETWEEN * place as u64,
            what: What::Line(0),
        })?;
    }
    Ok(schedule)
}

/// The program of so many rounds, 1 to 1,000, and its schedule. It is 460 bytes long, and what `SOURCE` assembles to but for its last word.
pub fn workload(alloc: Global, rounds: u32) -> Result<(Exe, Schedule), Memory>
    requires some { 1 ≤ rounds }
    requires most { rounds ≤ 1000 }
    ensures program { IfOk result (λ w. w.0 ≡ program rounds) }
    ensures readable { IfOk result (λ w. IsReadable w.0) }
    ensures schedule { IfOk result (λ w. w.1 ≡ blanks rounds) }

    // The word behind the last one of the table is the number of rounds, which is no load.
    ensures spaced { spaced WORDS ≡ true }
{
    let exe = exe(alloc, rounds)?;
    let schedule = schedule(alloc, rounds)?;
    Ok((exe, schedule))
}
