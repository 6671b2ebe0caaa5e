//! The table of names that reading leaves is one of places: each text in it is a name, or an element of an array of one; and a text reads
//! as before where the table has all that reading brings in. Here are the laws; there is no code.
#![tactic(auto)]

mod read_again;
mod table_laws;

pub use occ_script_back::{
    moves_are_written_well, printed_parts_read_back, read_programs_print_within_levels,
    written_moves_join,
};
pub use read_again::{programs_read_again, scripts_read_again};
pub use table_laws::{
    names_of_lines_are_places, no_names_are_places, orders_leave_places, programs_leave_places,
    scripts_leave_places, tables_have_places,
};
