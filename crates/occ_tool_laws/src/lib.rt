//! Laws about answers: two files have one normal text exactly where they are answered with SAME; what `normalise` writes is normal; and
//! what `transform`, `expand`, `derive` and `prove` print, `replay` joins; that it has that answer; and what excludes a
//! schedule. There is no code, but that two laws call the reader and the replay.
#![tactic(auto)]

mod joined_laws;
mod normal_laws;
mod proved_laws;
mod reading_laws;
mod replay_laws;
mod witness_laws;

pub use joined_laws::{
    derived_scripts_are_joined, expanded_scripts_are_joined, transformed_scripts_are_joined,
};
pub use normal_laws::{normal_texts_tell_files_apart, written_texts_are_normal};
pub use proved_laws::{proofs_have_one_way, proved_scripts_are_joined};
pub use reading_laws::texts_read_with_each_table;
pub use replay_laws::{printed_scripts_have_their_answer, replays_have_answers};
pub use witness_laws::refusals_exclude_schedules;
