//! Figures of the layers below the tool, in three parts: of the diagrams (how many sets a store has given numbers to after each
//! task), of nodes side by side (chains of buffers of one place, through which ten messages of one bit pass: how many nodes were
//! made and how many of them are rows of the result), and of large parts of scripts (texts of about a megabyte each, read,
//! resolved in a scope of one variable, and dropped; the last has a line of too many tokens, and is refused).
//!
//! The words `diagrams`, `chains` and `parts` choose among them; with none of these all three are run. With `times` each line has
//! the milliseconds that it took. `long` adds chains of 24 and 48 stages; `apart` gives each channel of a chain a name of its own,
//! where else two names serve in turn.
#![tactic(auto)]

mod chain;
mod measure;
mod reach;
mod tasks;
mod texts;

use occ_syntax::Memory;
use std::time::Instant;
use std::{env, io};

/// Prints a line and, where that is asked for, the milliseconds since the start.
fn print_line(
    rt: HostRuntime,
    timed: bool,
    start: Instant,
    line: Result<String, Memory>,
) -> io::Result<()> {
    let Ok(line) = line else {
        return println!(rt; "out of memory");
    };
    if timed {
        let took = start.elapsed(&rt)?.as_millis();
        return println!(rt; "{line}, {took} ms");
    }
    println!(rt; "{line}")
}

fn diagrams(rt: HostRuntime, timed: bool) -> io::Result<()> {
    for task in tasks::ALL {
        let start = Instant::now(&rt)?;
        print_line(rt, timed, start, tasks::line(rt.alloc(), task))?;
    }
    Ok(())
}

fn chains(rt: HostRuntime, timed: bool, apart: bool, longest: usize) -> io::Result<()> {
    for stages in [2, 4, 8, 12, 24, 48] {
        if stages <= longest {
            let start = Instant::now(&rt)?;
            print_line(rt, timed, start, chain::line(rt.alloc(), stages, apart))?;
        }
    }
    Ok(())
}

fn parts(rt: HostRuntime, timed: bool) -> io::Result<()> {
    for large in texts::ALL {
        let start = Instant::now(&rt)?;
        print_line(rt, timed, start, measure::line(rt.alloc(), large))?;
    }
    Ok(())
}

/// Whether a word is among the words of the command line.
fn has(words: &[String], wanted: &str) -> bool {
    for word in words {
        if word.as_str() == wanted {
            return true;
        }
    }
    false
}

fn main(rt: HostRuntime) -> io::Result<()> {
    let words: Vec<String> = env::args(&rt)?.collect(rt.alloc())?;
    let words = words.as_slice();
    let timed = has(words, "times");
    let all = !has(words, "diagrams") && !has(words, "chains") && !has(words, "parts");
    if all || has(words, "diagrams") {
        diagrams(rt, timed)?;
    }
    if all || has(words, "chains") {
        let longest = if has(words, "long") { 48 } else { 12 };
        chains(rt, timed, has(words, "apart"), longest)?;
    }
    if all || has(words, "parts") {
        parts(rt, timed)?;
    }
    Ok(())
}
