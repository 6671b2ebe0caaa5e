//! Printed programs read back: their texts have their lines, each line has the form of what it says, the lines are well laid out and stand
//! for the program that was printed, no deeper than level 64. A name of the table is a place: the name of a variable or a channel, or an
//! element of an array with its index. Here are the laws; there is no code.
#![tactic(auto)]

mod laws;
mod print_levels;
mod whole;

pub use laws::{
    printed_lines_are_in_order, printed_lines_are_well_laid_out, printed_lines_have_their_forms,
    printed_lines_stand_for_their_program, printed_text_has_its_lines,
};
pub use occ_parse::{Bound, ParseFault, Text, Which, one_reading, parse};
pub use occ_print::{line_tokens, print, print_part};
pub use print_levels::read_programs_print_within_levels;
pub use whole::printed_programs_read_back;
