//! The 63 laws of programs, each as one definition with its two sides and its side conditions (specs/); their names and numbers; and the
//! places of a part at which a law may hold.
#![tactic(auto)]

mod law;
mod place;
mod table;
mod variants;

pub use law::{
    a_kept_right_side_names_the_input, a_last_stop_leaves, a_skip_leaves_first,
    empty_seq_is_not_stop, empty_seq_is_skip, no_condition_cuts_nothing,
};
pub use occ_bits::{Store, equal_under, named_bits};
pub use place::Place;
pub use table::{Cases, LawId, TABLE, find, name, names_are_distinct};
pub use variants::{Changes, Family, Law};
