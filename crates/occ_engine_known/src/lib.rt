//! Orders and expansions have one outcome, and the names of what comes out stand in the table of names. Here are the laws; there is
//! no code.
#![tactic(auto)]

mod known_names;
mod outcomes;

pub use known_names::{
    direct_results_declare_no_new_names, expansions_have_known_names,
    followed_orders_have_known_names, given_parts_declare_known_names, kept_parts_have_known_names,
    names_stay_below, read_programs_have_known_names,
};
pub use occ_engine::{Dones, EngineFault, Outcome, expand, transform};
pub use outcomes::{
    expansions_have_no_fault, expansions_have_one_fault, expansions_have_one_outcome,
    followed_orders_have_one_outcome, orders_follow_or_stop, orders_stop_once,
};
