//! What orders and expansions make of a program can be written as a script, which reads back and joins whatever numbers its names have; and
//! accepted programs print texts that read back. Here are the laws; there is no code.
#![tactic(auto)]

mod numbered_moves;
mod read_back;
mod written;

pub use numbered_moves::{
    printed_moves_are_joined, processes_are_renamed, tables_stay_tables, written_moves_behind,
    written_moves_in_front, written_moves_stay,
};
pub use occ_engine_known::{
    Dones, EngineFault, Outcome, expand, expansions_have_known_names, expansions_have_no_fault,
    expansions_have_one_fault, expansions_have_one_outcome, followed_orders_have_known_names,
    followed_orders_have_one_outcome, kept_parts_have_known_names, names_stay_below,
    orders_follow_or_stop, orders_stop_once, read_programs_have_known_names, transform,
};
pub use read_back::{
    accepted_programs_read_back, parts_of_accepted_programs_read_back, parts_of_scripts_read_back,
};
pub use written::{
    expansions_are_written, followed_orders_are_written, known_moves_are_written,
    paths_of_texts_are_short, read_programs_are_typed, read_programs_declare_known_names,
};
