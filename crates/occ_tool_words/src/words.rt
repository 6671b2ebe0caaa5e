ghost use Rattle.std.specs.Prelude.{◌≡◌, ◌↔◌, map, drop, string_bytes, option_map, option_and_then, IfOk, IsTrue, true, false};
ghost use Rattle.std.specs.List.{fold, list_all};
ghost use Rattle.occ_tool_words.specs.Words.{expand_of, is_plain, job, job_of, stress_of, with_one, with_two, with_two_later};
ghost use Rattle.occ_tool_words.specs.CommandLine.{bare_line as no_commands, line as whole_line, job_found, job_named, later_commands, one_word_line, two_word_line, with_command};
ghost use Rattle.std.specs.Option.{option_copied};
ghost use Rattle.clap.specs.Words.{app_of, subcommand_rows_of, kind_of};
ghost use Rattle.clap.specs.declared.builder.command.Command.TheViews.{out-Command as fields_of};

use crate::stages::{shape_in, stages_in};
use clap::error::ErrorKind;
use clap::{Arg, ArgMatches, Error};
use occ_gen::{Memory, Path, Shape, script_lines_path as path};
use std::alloc::{AllocError, Global};

/// What a command line asks for.
#[derive(Debug, Drop)]
pub enum Command<'a> {
    /// Nothing: the words don't fit.
    Usage,
    /// To compare the programs in two files.
    Same { first: &'a str, second: &'a str },
    /// To write the normal text of the program in a file.
    Normalise { program: &'a str },
    /// To say whether the text in a file is a normal text.
    Normal { text: &'a str },
    /// To say whether the behaviour in one file is one of the program in another.
    Belongs { program: &'a str, text: &'a str },
    /// To count what the normal text of a chain of cells has; `stages` is from 1 to 48.
    Stress { shape: Shape, stages: u64 },
    /// To say whether the program in the second file does no more than the one in the first allows.
    Refine { first: &'a str, second: &'a str },
    /// To say whether the program in a file can be stuck.
    Deadlock { program: &'a str },
    /// To check the derivation in a file, law by law.
    Replay { text: &'a str },
    /// To follow the schedule in one file through the program in another, step by step.
    Run { program: &'a str, text: &'a str },
    /// To follow the orders in one file from the program in another, law by law, and to write the script.
    Transform { program: &'a str, text: &'a str },
    /// To expand the PAR of two parts at a path of the program in a file, and to write the script.
    Expand { program: &'a str, path: Path },
    /// To derive the normal program from the program in a file, law by law, and to write the script.
    Derive { program: &'a str },
}

/// What the words of a command line ask for, the program's own name first.
pub fn command_in<'a>(alloc: Global, words: &'a [String]) -> Result<Command<'a>, Memory>
    ensures { IfOk result (λ command. job command ≡ job_of (map string_bytes words.entry.now)) }
{
    if !are_plain(words) {
        return Ok(Command::Usage);
    }
    match command_line(alloc)?.try_get_matches_from(words) {
        Ok(matches) => command_found(alloc, &matches),
        Err(error) => {
            if is_memory(&error) {
                Err(Memory)
            } else {
                Ok(Command::Usage)
            }
        }
    }
}

/// Whether a parse failed since memory ran out.
fn is_memory(error: &Error) -> bool
    ensures { IsTrue result ↔ (kind_of error.now ≡ ErrorKind.OutOfMemory) }
{
    matches!(error.kind(), ErrorKind::OutOfMemory)
}

/// Whether no word after the first is empty or begins with `-`.
fn are_plain(words: &[String]) -> bool
    ensures { result ≡ list_all (λ word. is_plain (string_bytes word)) (drop 1 words.now) }
{
    words
        .iter()
        .skip(1)
        .all(|word| is_plain_word(word.as_str()))
}

/// Whether a word isn't empty and doesn't begin with `-`.
pub fn is_plain_word(word: &str) -> bool
    ensures { result ≡ is_plain word.now }
{
    match word.as_bytes() {
        [] => false,
        [first, ..] => *first != b'-',
    }
}

/// The command line: which commands there are, and how many words each takes.
fn command_line<'a>(alloc: Global) -> Result<clap::Command<'a>, AllocError>
    ensures { IfOk result (λ made. app_of made ≡ whole_line) }
{
    let line = add_two(alloc, bare_line(alloc), "same")?;
    let line = add_one(alloc, line, "normalise")?;
    let line = add_one(alloc, line, "normal")?;
    let line = add_two(alloc, line, "belongs")?;
    let line = add_two(alloc, line, "stress")?;
    add_later(alloc, line)
}

/// Adds the commands behind `stress`.
fn add_later<'a>(alloc: Global, line: clap::Command<'a>) -> Result<clap::Command<'a>, AllocError>
    ensures { IfOk result (λ made. app_of made ≡ fold with_command (app_of line.entry) later_commands) }
{
    let line = add_two(alloc, line, "refine")?;
    let line = add_one(alloc, line, "deadlock")?;
    let line = add_one(alloc, line, "replay")?;
    let line = add_two(alloc, line, "run")?;
    let line = add_two(alloc, line, "transform")?;
    let line = add_two(alloc, line, "expand")?;
    add_one(alloc, line, "derive")
}

/// The command line with no command yet.
fn bare_line<'a>(alloc: Global) -> clap::Command<'a>
    ensures { app_of result ≡ no_commands }
{
    clap::Command::new(alloc, "occam")
        .disable_help_flag(true)
        .disable_help_subcommand(true)
        .subcommand_required(true)
}

/// Adds a command with one word.
fn add_one<'a>(
    alloc: Global,
    line: clap::Command<'a>,
    name: &'a str,
) -> Result<clap::Command<'a>, AllocError>
    ensures { IfOk result (λ made. app_of made ≡ with_command (app_of line.entry) (name.entry.now, 1)) }
{
    line.subcommand(one_word(alloc, name)?)
}

/// Adds a command with two words.
fn add_two<'a>(
    alloc: Global,
    line: clap::Command<'a>,
    name: &'a str,
) -> Result<clap::Command<'a>, AllocError>
    ensures { IfOk result (λ made. app_of made ≡ with_command (app_of line.entry) (name.entry.now, 2)) }
{
    line.subcommand(two_words(alloc, name)?)
}

/// A command with one word.
fn one_word<'a>(alloc: Global, name: &'a str) -> Result<clap::Command<'a>, AllocError>
    ensures shape { IfOk result (λ made. app_of made ≡ one_word_line name.entry.now) }
    ensures local { IfOk result (λ made. (fields_of made).has_globals ≡ false) }
{
    clap::Command::new(alloc, name).arg(Arg::new(alloc, "first").required(true))
}

/// A command with two words.
fn two_words<'a>(alloc: Global, name: &'a str) -> Result<clap::Command<'a>, AllocError>
    ensures shape { IfOk result (λ made. app_of made ≡ two_word_line name.entry.now) }
    ensures local { IfOk result (λ made. (fields_of made).has_globals ≡ false) }
{
    one_word(alloc, name)?.arg(Arg::new(alloc, "second").required(true))
}

/// What the parse found.
fn command_found<'a>(alloc: Global, matches: &ArgMatches<'a>) -> Result<Command<'a>, Memory>
    ensures { IfOk result (λ command. job command ≡ option_and_then job_found (subcommand_rows_of matches.now)) }
{
    let Some((name, found)) = matches.subcommand() else {
        return Ok(Command::Usage);
    };
    command_named(alloc, name, found.get_str("first"), found.get_str("second"))
}

/// The command of a name and the words that follow it.
fn command_named<'a>(
    alloc: Global,
    name: &str,
    first: Option<&'a str>,
    second: Option<&'a str>,
) -> Result<Command<'a>, Memory>
    ensures { IfOk result (λ command. job command ≡ job_named name.now (option_copied first.entry) (option_copied second.entry)) }
{
    let Some(first) = first else {
        return Ok(Command::Usage);
    };
    match second {
        None => Ok(command_of_one(name, first)),
        Some(second) => command_of_two(alloc, name, first, second),
    }
}

fn command_of_one<'a>(name: &str, first: &'a str) -> Command<'a>
    ensures { job result ≡ with_one name.now first.entry.now }
{
    if name == "normalise" {
        Command::Normalise { program: first }
    } else if name == "normal" {
        Command::Normal { text: first }
    } else if name == "deadlock" {
        Command::Deadlock { program: first }
    } else if name == "replay" {
        Command::Replay { text: first }
    } else if name == "derive" {
        Command::Derive { program: first }
    } else {
        Command::Usage
    }
}

fn command_of_two<'a>(
    alloc: Global,
    name: &str,
    first: &'a str,
    second: &'a str,
) -> Result<Command<'a>, Memory>
    ensures { IfOk result (λ command. job command ≡ with_two name.now first.entry.now second.entry.now) }
{
    if name == "same" {
        Ok(Command::Same { first, second })
    } else if name == "belongs" {
        Ok(Command::Belongs {
            program: first,
            text: second,
        })
    } else if name == "stress" {
        Ok(stress_with(first, second))
    } else {
        command_behind_stress(alloc, name, first, second)
    }
}

/// The commands with two words that stand behind `stress`.
fn command_behind_stress<'a>(
    alloc: Global,
    name: &str,
    first: &'a str,
    second: &'a str,
) -> Result<Command<'a>, Memory>
    ensures { IfOk result (λ command. job command ≡ with_two_later name.now first.entry.now second.entry.now) }
{
    if name == "refine" {
        Ok(Command::Refine { first, second })
    } else if name == "run" {
        Ok(Command::Run {
            program: first,
            text: second,
        })
    } else if name == "transform" {
        Ok(Command::Transform {
            program: first,
            text: second,
        })
    } else if name == "expand" {
        expand_with(alloc, first, second)
    } else {
        Ok(Command::Usage)
    }
}

/// The command `stress` with its two words.
fn stress_with<'a>(kind: &str, stages: &str) -> Command<'a>
    ensures { job result ≡ stress_of kind.now stages.now }
{
    let Some(shape) = shape_in(kind) else {
        return Command::Usage;
    };
    let Some(stages) = stages_in(stages) else {
        return Command::Usage;
    };
    Command::Stress { shape, stages }
}

/// The command `expand` with its two words.
fn expand_with<'a>(alloc: Global, program: &'a str, place: &str) -> Result<Command<'a>, Memory>
    ensures { IfOk result (λ command. job command ≡ expand_of program.entry.now place.now) }
{
    match path(alloc, place.as_bytes())? {
        Some(path) => Ok(Command::Expand { program, path }),
        None => Ok(Command::Usage),
    }
}
