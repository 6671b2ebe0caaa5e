//! Worked examples of the definitions: what small programs do and don't, which mean the same, what is an instance of a law and what
//! isn't, and where a schedule leads. There is no code: each example is the contract of a function without a body.
#![tactic(auto)]

mod behaviours;
mod instances;
mod schedules;

pub use behaviours::{
    a_hidden_output_stops, a_ready_guard_may_be_passed_over, an_exchange_is_no_sequence,
    parts_exchange_values, sums_wrap_round, who_chooses_inside_refuses,
    who_chooses_outside_refuses_neither,
};
pub use instances::{
    an_alternative_is_no_one_skip, assignments_go_behind_guards, choices_leave_a_par,
    true_choices_are_taken, unused_variables_leave, what_is_one_part,
};
pub use schedules::{a_communication_is_one_step, a_variable_begins_with_any_value};
