//! What the words of the command line ask for.
ghost use Rattle.std.specs.Prelude.{◌≡◌, ◌<◌, ◌≤◌, ◌+◌, ◌*◌, ◌-◌, ◌^◌, ℕ, List, [], ◌∷◌, map, IfSome};
ghost use Rattle.std.specs.Option.{option_map};
ghost use Rattle.psxk_run.specs.Command.{budget_of, value_of, schedule_of, alone, with_name, asked, with_files, command_of, rounds_of, ToGenerate};
ghost use Rattle.psxk_run.specs.Told.{told, word_of, IsInRange};
ghost use Rattle.psxk_run.specs.Words.{words_of};

/// A run of a program.
#[derive(Clone, Copy, Debug)]
pub struct Run<'a> {
    /// The name that the program is loaded by.
    pub name: &'a str,
    /// The name that the schedule is loaded by; None is the empty schedule.
    pub schedule: Option<&'a str>,
    /// How many steps it may take, 1 to 4,000,000,000.
    pub budget: u32,
    /// The name that the configuration is loaded by; None is that of 4 threads and 16 events.
    pub config: Option<&'a str>,
}

/// What the words ask for.
#[derive(Clone, Copy, Debug)]
pub enum Request<'a> {
    /// `run`: a run of a program.
    Run(Run<'a>),
    /// `image`: the bytes of the ROM.
    Image,
    /// `dis`: the printed words of the program that is loaded by this name.
    Print(&'a str),
    /// `asm`: the program of the assembly text that is loaded by this name.
    Assemble(&'a str),
    /// `gen`: a run of the workload of so many rounds, 1 to 1,000.
    Generate(u32),
}

// The number that the digits give.
fn value(digits: &[u8]) -> Option<u32>
    ensures { result ≡ value_of 0 digits.now }
{
    let mut value: u64 = 0;
    for digit in digits {
        if value > 4_000_000_000 {
            return None;
        }
        if *digit < b'0' {
            return None;
        }
        if *digit > b'9' {
            return None;
        }
        value = value * 10 + (*digit - b'0') as u64;
    }
    if value > 4_000_000_000 {
        return None;
    }
    Some(value as u32)
}

/// A budget of steps, where the word is one.
pub fn budget(word: &str) -> Option<u32>
    ensures value { result ≡ budget_of word.now }
    ensures some { IfSome result (λ n. 0 < n) }
{
    let bytes = word.as_bytes();
    if bytes.is_empty() || bytes[0] == b'0' {
        return None;
    }
    value(bytes)
}

// A number of rounds, where the word is one.
fn rounds(word: &str) -> Option<u32>
    ensures value { result ≡ rounds_of word.now }
    ensures some { IfSome result (λ n. (0 < n) × (n ≤ 1000)) }
{
    let number = budget(word)?;
    if number <= 1000 { Some(number) } else { None }
}

// The name of a schedule: `-` is none.
fn schedule_name<'a>(word: &'a str) -> Option<&'a str>
    ensures { word_of result ≡ schedule_of word.now }
{
    if word == "-" { None } else { Some(word) }
}

// What a word alone asks for.
fn alone<'a>(word: &str) -> Option<Request<'a>>
    ensures asked { option_map told result ≡ alone word.now }
    ensures range { IfSome result IsInRange }
{
    if word == "image" {
        Some(Request::Image)
    } else {
        None
    }
}

// A run of the workload by its number of rounds.
fn workload_of<'a>(number: &str) -> Option<Request<'a>>
    ensures asked { option_map told result ≡ option_map ToGenerate (rounds_of number.now) }
    ensures range { IfSome result IsInRange }
{
    let rounds = rounds(number)?;
    Some(Request::Generate(rounds))
}

// What a word and a name ask for.
fn with_name<'a>(word: &str, name: &'a str) -> Option<Request<'a>>
    ensures asked { option_map told result ≡ with_name word.now name.now }
    ensures range { IfSome result IsInRange }
{
    if word == "dis" {
        Some(Request::Print(name))
    } else if word == "asm" {
        Some(Request::Assemble(name))
    } else if word == "gen" {
        workload_of(name)
    } else {
        None
    }
}

// A run by its words.
fn run_of<'a>(
    name: &'a str,
    schedule: &'a str,
    number: &str,
    config: Option<&'a str>,
) -> Option<Request<'a>>
    ensures asked { option_map told result ≡ asked name.now schedule.now (word_of config.entry) (budget_of number.now) }
    ensures range { IfSome result IsInRange }
{
    let budget = budget(number)?;
    Some(Request::Run(Run {
        name,
        schedule: schedule_name(schedule),
        budget,
        config,
    }))
}

// What a word, the names of files and a number ask for.
fn with_files<'a>(
    word: &str,
    name: &'a str,
    schedule: &'a str,
    number: &str,
    config: Option<&'a str>,
) -> Option<Request<'a>>
    ensures asked { option_map told result ≡ with_files word.now name.now schedule.now number.now (word_of config.entry) }
    ensures range { IfSome result IsInRange }
{
    if word == "run" {
        run_of(name, schedule, number, config)
    } else {
        None
    }
}

/// What the words ask for: `run EXE SCHED BUDGET` or `run EXE SCHED BUDGET CNF`, `image`, `dis EXE`, `asm TEXT` or `gen N`.
#[tactic(auto, unfolding(crate::specs::Command::command_of))]
pub fn command<'a>(words: &[&'a str]) -> Option<Request<'a>>
    ensures asked { option_map told result ≡ command_of (words_of words.now) }
    ensures range { IfSome result IsInRange }
{
    match words {
        [] => None,
        [word] => alone(word),
        [word, name] => with_name(word, name),
        [_, _, _] => None,
        [word, name, schedule, number] => with_files(word, name, schedule, number, None),
        [word, name, schedule, number, config] => {
            with_files(word, name, schedule, number, Some(config))
        }
        [_, _, _, _, _, _, ..] => None,
    }
}
