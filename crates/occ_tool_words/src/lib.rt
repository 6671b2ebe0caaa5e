//! The words of a command line: which command they ask for, and its words. The commands are `same A B`, `normalise A`,
//! `normal T`, `belongs A T`, `transform A T`, `expand A PATH`, `derive A`, `refine A B`, `deadlock A`, `replay T`, `run A T`
//! and `stress KIND N`, where `PATH` is a path, `KIND` is `buffers`, `adders` or `muxes`, and `N` a number from 1 to 48; the other
//! words name files.
#![tactic(auto)]

mod stages;
mod words;

pub use occ_gen::{
    Bound, GenFault, ParseFault, Shape, Text, Which, generate, generated_programs_are_accepted,
    generated_programs_are_never_refused, one_reading, parse, read_programs_print_within_levels,
};
pub use words::{Command, command_in, is_plain_word};
