//! The words of a command line: `check A`, `draw T`, `prove A B`, `witness A T`, `aut A`, `promela A`, `steps A`, `steps A T`, `why
//! A`, `why A B`, `traces A B`, `deterministic A` and `explain T REFUSAL`. The words
//! behind a command name files, but for a refusal.

ghost use Rattle.std.specs.Prelude.{◌≡◌, map, string_bytes};
ghost use Rattle.occ_workshop_run.specs.Words.{job, job_of, of_one, of_two, with_one, with_two};

use occ_witness::is_plain_word;

/// What a command line asks for.
#[derive(Clone, Copy, Debug)]
pub enum Command<'a> {
    /// Nothing: the words don't fit.
    Usage,
    /// To say what is wrong with the program in a file.
    Check { program: &'a str },
    /// To write the normal text or the script in a file as a picture or a list.
    Draw { text: &'a str },
    /// To explain why the text in a file was refused.
    Explain { text: &'a str, refusal: &'a str },
    /// To prove the programs in two files the same, law by law, and to write the script.
    Prove { first: &'a str, second: &'a str },
    /// To find a schedule with which the program in a file shows the behaviour in another.
    Witness { program: &'a str, text: &'a str },
    /// To write what the program in a file does as a labelled transition system.
    Aut { program: &'a str },
    /// To write the program in a file as a model for Spin.
    Promela { program: &'a str },
    /// To list the steps that the program in a file can take first.
    Steps { program: &'a str },
    /// To list those behind the schedule in another file.
    StepsAfter { program: &'a str, text: &'a str },
    /// To say why the program in a file can be stuck.
    Why { program: &'a str },
    /// To say why the programs in two files differ.
    WhyApart { first: &'a str, second: &'a str },
    /// To ask whether each trace of the second program is one of the first.
    Traces { first: &'a str, second: &'a str },
    /// To ask whether the program in a file is deterministic.
    Deterministic { program: &'a str },
}

/// What the words of a command line ask for, the program's own name first.
pub fn command_in<'a>(words: &'a [String]) -> Command<'a>
    ensures { job result ≡ job_of (map string_bytes words.entry.now) }
{
    match words {
        [_, command, first] => command_of_one(command.as_str(), first.as_str()),
        [_, command, first, second] => {
            command_of_two(command.as_str(), first.as_str(), second.as_str())
        }
        _ => Command::Usage,
    }
}

/// A command with one word.
#[tactic(auto, unfolding(crate::specs::Words::with_one))]
fn command_of_one<'a>(command: &str, first: &'a str) -> Command<'a>
    ensures { job result ≡ with_one command.now first.entry.now }
{
    if is_plain_word(first) {
        one_named(command, first)
    } else {
        Command::Usage
    }
}

fn one_named<'a>(command: &str, first: &'a str) -> Command<'a>
    ensures { job result ≡ of_one command.now first.entry.now }
{
    if command == "draw" {
        Command::Draw { text: first }
    } else if command == "check" {
        Command::Check { program: first }
    } else if command == "aut" {
        Command::Aut { program: first }
    } else if command == "promela" {
        Command::Promela { program: first }
    } else if command == "steps" {
        Command::Steps { program: first }
    } else if command == "why" {
        Command::Why { program: first }
    } else if command == "deterministic" {
        Command::Deterministic { program: first }
    } else {
        Command::Usage
    }
}

/// A command with two words.
#[tactic(auto, unfolding(crate::specs::Words::with_two))]
fn command_of_two<'a>(command: &str, first: &'a str, second: &'a str) -> Command<'a>
    ensures { job result ≡ with_two command.now first.entry.now second.entry.now }
{
    if is_plain_word(first) && is_plain_word(second) {
        two_named(command, first, second)
    } else {
        Command::Usage
    }
}

fn two_named<'a>(command: &str, first: &'a str, second: &'a str) -> Command<'a>
    ensures { job result ≡ of_two command.now first.entry.now second.entry.now }
{
    if command == "prove" {
        Command::Prove { first, second }
    } else if command == "witness" {
        Command::Witness {
            program: first,
            text: second,
        }
    } else if command == "explain" {
        Command::Explain {
            text: first,
            refusal: second,
        }
    } else if command == "steps" {
        Command::StepsAfter {
            program: first,
            text: second,
        }
    } else if command == "why" {
        Command::WhyApart { first, second }
    } else if command == "traces" {
        Command::Traces { first, second }
    } else {
        Command::Usage
    }
}
