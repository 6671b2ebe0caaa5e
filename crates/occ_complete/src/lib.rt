//! Laws are complete: laws lead from two accepted programs that mean the same to one body, and steps lead from each accepted program to
//! its normal program. Here are the laws; there is no code.
#![tactic(auto)]

mod existence;
mod first_events;
mod freed_names;
mod law;
mod laws;
mod par_laws;
mod settled;
mod unified;

pub use existence::{derivations_exist, laws_are_complete};
pub use first_events::parts_have_heads;
pub use freed_names::declared_names_give_way;
pub use law::normal_programs_are_derivable;
pub use laws::{
    bodies_are_shaped, bodies_begin, clearing_goes, ends_are_parted,
    nodes_that_are_followed_are_shaped, superpositions_are_shaped, tables_have_headers,
};
pub use par_laws::{
    alternatives_meet, assignments_leave_pars, choices_leave_pars,
    choices_with_a_last_true_are_exhaustive, expansions_are_no_heavier, others_become_one,
    pars_of_none_are_skip, pars_of_one_are_it, parts_change_places, skip_leaves_pars,
    stop_leaves_pars,
};
pub use settled::{configurations_settle, superpositions_settle};
pub use unified::settled_alternatives_unify;
