//! The command `witness`: of the program in one file and the behaviour in another, a schedule with which the command `run` shows the
//! behaviour.
#![tactic(auto)]

mod command;
mod finding;
mod searching;

pub use command::witness;
pub use occ_tool_run::{
    CallNamed as Named, Contents, Desk, Loaded, MOST_BYTES, MOST_TABLE_BYTES, RealDesk, Reply,
    Stop, Wanted, command_words, expansions_are_written, faults_are_those_of_what_is_written,
    followed_orders_are_written, is_plain_word, kept_parts_have_known_names,
    known_moves_are_written, load, names_stay_below, narrow_steps_are_moves,
    normal_texts_are_read_as_written, normal_texts_are_renamed, normal_texts_need_no_names,
    normal_texts_tell_programs_apart, one_answer, one_reading, parameters_have_names,
    paths_of_texts_are_short, printed_moves_are_joined, programs_leave_places, programs_read_again,
    read_programs_have_known_names, read_programs_print_within_levels, readings_are_not_refused,
    readings_are_renamed, scripts_have_one_answer, send_reply,
    texts_of_programs_are_those_of_their_tables,
};
