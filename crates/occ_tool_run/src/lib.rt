//! The top call: the words of a command line, the files that they name, and the answer.
#![tactic(auto)]

pub mod accept;
pub mod answer;
mod answering;
pub mod judge;
mod law;
mod measure;
mod member;
mod normal;
mod reason;
pub mod refusal;
mod rejection;
mod replaying;
mod running;
pub mod stuck;
mod to_normal;
mod top;
pub mod transforming;

pub use law::{
    accepted_programs_keep_usage, derivations_have_one_end, one_answer, same_where_both_refine,
};
pub use occ_call::{
    Contents, Desk, Loaded, MOST_BYTES, MOST_TABLE_BYTES, MemoryDesk, Named as CallNamed, RealDesk,
    Reply, Stop, Wanted, command_words, load, send_reply,
};
pub use occ_derive::{
    DeriveFault, Done, derive, derive_to, narrow_steps_are_moves, normal_programs_are_derivable,
    read_path, steps_go_on,
};
pub use occ_engine_written::{
    Dones, Outcome, expansions_are_written, followed_orders_are_written,
    kept_parts_have_known_names, known_moves_are_written, names_stay_below,
    paths_of_texts_are_short, printed_moves_are_joined, read_programs_declare_known_names,
    read_programs_have_known_names,
};
pub use occ_read_renamed::{
    normal_table, normal_texts_are_renamed, normal_texts_need_no_names,
    normal_texts_tell_programs_apart, parameters_have_names, programs_leave_places,
    programs_read_again, readings_are_not_refused, readings_are_renamed,
    renamed_programs_mean_the_same,
};
pub use occ_replay::{
    Direction, LawId, Path, Raw, Script, ScriptFault, Step, at, name, one_script,
    parts_are_known_up_to_their_greatest_name, read as script_read, replace, resolve, scope_at,
    scripts_have_one_answer,
};
pub use occ_run_schedule::{
    Accepted, ClaimFault, Side, States, Table, TableFault, TableRow, Verdict, Witness,
    a_normal_text_is_its_tables, behaviour_read_read, behaviours_are_read_as_written,
    faults_are_those_of_what_is_written, faults_stand_where_nothing_goes_on, find_witness,
    interface_bits, nform_read_read as read, normal_texts_are_read_as_written, push_event,
    push_state, texts_of_programs_are_those_of_their_tables,
};
pub use occ_syntax::{Memory, Names};
pub use occ_tool_words::{
    ParseFault, is_plain_word, one_reading, read_programs_print_within_levels,
};
pub use top::run;
