//! Which numbers names have doesn't count: lines under other names stand for the same program under other names, laws join what they
//! joined, and scripts keep their moves and their texts. Here are the laws; there is no code.
#![tactic(auto)]

mod exchange_laws;
mod parse_laws;
mod script_laws;

pub use exchange_laws::{exchanged_names_keep_the_rules, laws_hold_under_exchanged_names};
pub use occ_replay_rules::{
    expansions_make_moves, names_are_distinct, one_form, one_reading_of_a_part, orders_make_moves,
};
pub use parse_laws::{
    faults_are_renamed, forms_are_renamed, places_are_renamed, programs_are_renamed,
};
pub use script_laws::{moves_stay_moves, parts_keep_their_text, programs_keep_their_text};
