//! What is written as a script is read so: its sections, its steps, its programs and the whole; and a script that is written of moves
//! joins. A name of the table is a place: the name of a variable or a channel, or an element of an array with its index. Here are the
//! laws; there is no code.
#![tactic(auto)]

mod joined_laws;
mod part_laws;
mod program_laws;
mod write_laws;

pub use joined_laws::{moves_are_written_well, written_moves_join};
pub use occ_print_back::read_programs_print_within_levels;
pub use occ_script_write::{
    Accepted, Done, Law, Path, greatest_name, numbered, parts_are_known_up_to_their_greatest_name,
    write,
};
pub use part_laws::{printed_part_has_its_lines, printed_parts_read_back, tables_grow_by_elements};
pub use program_laws::{
    printed_programs_keep_limits, printed_programs_read_back_behind_blank_lines,
};
pub use write_laws::{
    printed_texts_stay, written_lines_say_their_steps, written_programs_read_back,
    written_scripts_have_their_sections, written_scripts_read_back, written_steps_are_kept,
    written_steps_are_read, written_steps_read_back, written_texts_have_their_sections,
};
