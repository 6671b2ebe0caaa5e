//! What a derivation is, what the replay of a script answers, and what orders and expansions make of a program: the definitions, and their
//! laws; there is no code.
#![tactic(auto)]

mod engine_laws;
mod replay_laws;

pub use engine_laws::{expansions_make_moves, moves_keep_the_meaning, orders_make_moves};
pub use occ_law_sound::{laws_are_sound, names_are_distinct};
pub use occ_parse_part::one_reading_of_a_part;
pub use occ_print::{one_form, parts_are_known_up_to_their_greatest_name};
pub use occ_script_lines::{Direction, Path, at, replace, scope_at};
pub use replay_laws::{
    derivations_follow_each_other, derivations_join_the_same, scripts_have_one_answer,
};
