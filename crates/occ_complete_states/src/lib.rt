//! That one part of a program leads to another by laws, and what a state tells of the part behind it. Here are the definitions of leading,
//! the forms through which each program goes to its normal one, and their laws; there is no code.
#![tactic(auto)]

mod given_values;
mod guards;
mod laws;
mod told_states;

pub use given_values::given_values_are_told;
pub use guards::alternatives_are_opened;
pub use laws::{
    leading_goes_on, leading_keeps_the_rules, parts_that_lead_are_replaced,
    processes_that_lead_are_replaced, sides_of_laws_lead, sparing_parts_are_replaced,
    sparing_sides_lead,
};
pub use occ_derive_laws::rows_make_steps;
pub use told_states::{
    assignments_are_told, choices_are_taken, declared_variables_begin, states_end,
};
