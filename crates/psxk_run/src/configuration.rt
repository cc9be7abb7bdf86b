//! The configuration text: how many threads and events a run's kernel has.
ghost use Rattle.std.specs.Prelude.{◌≡◌, ◌==◌, ◌<◌, ◌≤◌, ◌+◌, ◌^◌, ℕ, List, [], ◌∷◌, ◌++◌, false, Result, IfOk, IfErr, IfSome, IfNone, codes, length, slice_index};
ghost use Rattle.std.specs.Char.{is_digit};
ghost use Rattle.std.specs.List.{prefix_len, position_or_len};
ghost use Rattle.std.specs.Str.Lines.{strip_carriage_return};
ghost use Rattle.std.specs.Str.Parse.{IsNumeral, digits_value};
ghost use Rattle.psx_base.specs.declared.stop.Sizes.{Sizes};
ghost use Rattle.psxk_run.specs.declared.configuration.Setting.{Setting};
ghost use Rattle.psxk_run.specs.declared.configuration.ConfError.{ConfError};
ghost use Rattle.psxk_run.specs.Config.{is_blank, behind, Assigns, HasKey, HasNumber, IsHexadecimal, IsKept, IsSettingFault, Says, IsConfigOf};

use psx_base::Sizes;
use psx_text::{front, skip};

/// Why a configuration text gave no sizes. TooLong comes first, and then the first faulty line. Lines are numbered from 1 on.
#[derive(Clone, Copy, PartialEq, Eq, Debug)]
pub enum ConfError {
    /// More bytes than a text may have.
    TooLong { limit: usize },
    /// A line that has no form, or the second one of its key.
    BadLine { line: u32 },
    /// A number of threads that isn't 4 to 16, or a number of events that isn't 16 to 64.
    Range { line: u32 },
}

// What a line says.
#[derive(Clone, Copy)]
enum Setting {
    Nothing,
    Threads(u32),
    Events(u32),
}

// The sizes that the lines so far have said.
#[derive(Clone, Copy)]
struct Kept {
    threads: Option<u32>,
    events: Option<u32>,
}

// The most bytes that a text may have.
const LONGEST: usize = 4_194_304;

// The ranges of the sizes.
const LEAST_THREADS: u32 = 4;

const MOST_THREADS: u32 = 16;

const LEAST_EVENTS: u32 = 16;

const MOST_EVENTS: u32 = 64;

// Whether a byte is a space or a tab.
fn is_blank(byte: u8) -> bool
    ensures { result ≡ is_blank byte }
{
    byte == b' ' || byte == b'\t'
}

// How many blanks a text begins with.
fn blanks_len(text: &[u8]) -> usize
    ensures { result ≡ prefix_len is_blank text.now }
{
    text.iter().take_while(|byte| is_blank(**byte)).count()
}

// A text behind its first blanks.
fn skip_blanks(text: &[u8]) -> &[u8]
    ensures { result.now ≡ behind text.now }
{
    skip(text, blanks_len(text))
}

// How many hexadecimal digits a text begins with.
fn digits_len(text: &[u8]) -> usize
    ensures { result ≡ prefix_len (λ c. is_digit c 16) text.now }
{
    text.iter()
        .take_while(|byte| (**byte as char).is_digit(16))
        .count()
}

// How many bytes a text has before its first line feed.
fn line_len(text: &[u8]) -> usize
    ensures { result ≡ position_or_len (λ b. b == 10) text.now }
{
    text.iter().take_while(|byte| **byte != b'\n').count()
}

// A line without one carriage return at its end.
fn without_return(line: &[u8]) -> &[u8]
    ensures { result.now ≡ strip_carriage_return line.now }
{
    if !line.is_empty() && line[line.len() - 1] == b'\r' {
        &line[..line.len() - 1]
    } else {
        line
    }
}

// The number of at most eight hexadecimal digits.
fn value_of(digits: &[u8]) -> u32
    requires digits { IsNumeral 16 digits.now }
    requires short { length digits.now ≤ 8 }
    ensures { result ≡ digits_value 16 digits.now }
{
    let mut value = 0u64;
    for digit in digits {
        let Some(digit) = (*digit as char).to_digit(16) else {
            unreachable!();
        };
        value = value * 16 + digit as u64;
    }
    value as u32
}

// The number that a value has.
fn number(value: &[u8]) -> Option<u32>
    ensures found { IfSome result (IsHexadecimal value.now) }
    ensures none { IfNone result ((n : ℕ) → ¬ IsHexadecimal value.now n) }
{
    let text = skip_blanks(value);
    let len = digits_len(text);
    if len == 0 || len > 8 {
        return None;
    }
    if !skip_blanks(skip(text, len)).is_empty() {
        return None;
    }
    Some(value_of(front(text, len)))
}

// The value that a line assigns to a key.
fn value_at<'a>(line: &'a [u8], key: &[u8]) -> Option<&'a [u8]>
    requires some { 0 < length key.now }
    requires no_blank { is_blank (slice_index key.now 0) ≡ false }
    ensures found { IfSome result (λ value. Assigns line.now key.now value.now) }
    ensures only { IfSome result (λ value. (other : List ℕ) → Assigns line.now key.now other → other ≡ value.now) }
    ensures none { IfNone result (¬ HasKey line.now key.now) }
{
    let text = skip_blanks(line);
    if !text.starts_with(key) {
        return None;
    }
    let rest = skip_blanks(skip(text, key.len()));
    if !rest.starts_with(b"=") {
        return None;
    }
    Some(skip(rest, 1))
}

// The number that a line assigns to a key.
fn number_at(line: &[u8], key: &[u8]) -> Option<u32>
    requires some { 0 < length key.now }
    requires no_blank { is_blank (slice_index key.now 0) ≡ false }
    ensures found { IfSome result (HasNumber line.now key.now) }
    ensures none { IfNone result ((n : ℕ) → ¬ HasNumber line.now key.now n) }
{
    let Some(value) = value_at(line, key) else {
        return None;
    };
    number(value)
}

// What a line says.
fn says(line: &[u8]) -> Option<Setting>
    ensures found { IfSome result (Says line.now) }
    ensures none { IfNone result ((s : Setting) → ¬ Says line.now s) }
{
    if skip_blanks(line).is_empty() {
        return Some(Setting::Nothing);
    }
    if value_at(line, b"BOOT").is_some() {
        return Some(Setting::Nothing);
    }
    if value_at(line, b"STACK").is_some() {
        return Some(Setting::Nothing);
    }
    if let Some(threads) = number_at(line, b"TCB") {
        return Some(Setting::Threads(threads));
    }
    if let Some(events) = number_at(line, b"EVENT") {
        return Some(Setting::Events(events));
    }
    None
}

// What is kept after one more setting, which the line of this number says.
fn kept_with(kept: Kept, setting: Setting, line: u32) -> Result<Kept, ConfError>
    ensures ok { IfOk result (λ next. (before : List Setting) → IsKept before kept → IsKept (before ++ setting ∷ []) next) }
    ensures err { IfErr result (λ fault. (before : List Setting) → IsKept before kept → IsSettingFault before setting line fault) }
{
    match setting {
        Setting::Nothing => Ok(kept),
        Setting::Threads(threads) => {
            if kept.threads.is_some() {
                return Err(ConfError::BadLine { line });
            }
            if threads < LEAST_THREADS || threads > MOST_THREADS {
                return Err(ConfError::Range { line });
            }
            Ok(Kept {
                threads: Some(threads),
                events: kept.events,
            })
        }
        Setting::Events(events) => {
            if kept.events.is_some() {
                return Err(ConfError::BadLine { line });
            }
            if events < LEAST_EVENTS || events > MOST_EVENTS {
                return Err(ConfError::Range { line });
            }
            Ok(Kept {
                threads: kept.threads,
                events: Some(events),
            })
        }
    }
}

/// The sizes that a configuration text gives, or the text's first fault: there is one answer for each text. It takes no memory.
pub fn config(text: &[u8]) -> Result<Sizes, ConfError>
    ensures value { IsConfigOf text.now result }
    ensures only { (other : Result Sizes ConfError) → IsConfigOf text.now other → other ≡ result }
{
    if text.len() > LONGEST {
        return Err(ConfError::TooLong { limit: LONGEST });
    }
    let mut kept = Kept {
        threads: None,
        events: None,
    };
    let mut line = 1;
    let mut rest = text;
    loop {
        let len = line_len(rest);
        let Some(setting) = says(without_return(front(rest, len))) else {
            return Err(ConfError::BadLine { line });
        };
        kept = match kept_with(kept, setting, line) {
            Ok(next) => next,
            Err(fault) => return Err(fault),
        };
        if len == rest.len() {
            return Ok(Sizes {
                threads: kept.threads.unwrap_or(4),
                events: kept.events.unwrap_or(16),
            });
        }
        rest = skip(rest, len + 1);
        line += 1;
    }
}
