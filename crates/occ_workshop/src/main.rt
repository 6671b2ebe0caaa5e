//! The program: the workshop over the files of the system and its standard output.
#![tactic(auto)]

use occ_workshop_run::{RealDesk, command_words, run};
use std::process::ExitCode;

/// Gives the words of the command line to `run`, and ends with its status. Nothing is written but by `run`.
fn main(rt: HostRuntime) -> ExitCode {
    let alloc = rt.alloc();
    match command_words(&rt, alloc) {
        Ok(words) => {
            let mut desk = RealDesk::new(&rt);
            ExitCode::from(run(alloc, words.as_slice(), &mut desk))
        }
        Err(status) => ExitCode::from(status),
    }
}
