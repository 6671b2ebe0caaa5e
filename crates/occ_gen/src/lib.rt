//! Generated programs, for figures: chains of cells, each of which reads from the channel before it and sends to the channel behind it, a
//! fixed number of times. The cells are one-place buffers, incrementers or switches. All but the first and the last channel are declared
//! inside, each one level below the one before, so a chain of `n` cells has `n` levels of PAR. Each such text is accepted.
#![tactic(auto)]

mod accepted;
mod cell;
mod fault;
mod line;
mod program;
mod shape;

pub use accepted::{generated_programs_are_accepted, generated_programs_are_never_refused};
pub use fault::GenFault;
pub use occ_print_back::{
    Bound, ParseFault, Text, Which, line_tokens, one_reading, parse, print, print_part,
    read_programs_print_within_levels,
};
pub use occ_script::{Memory, Path, script_lines_path};
pub use program::generate;
pub use shape::Shape;
