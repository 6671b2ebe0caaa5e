//! How a program goes on by single steps, as definitions alone, after Plotkin; and the laws that a program does exactly what schedules of
//! steps reach. There is no code.
#![tactic(auto)]

mod law;
mod run_laws;

pub use law::{what_is_settled_is_settled, what_is_settled_stays};
pub use occ_meaning::events_are_of_the_interface;
pub use run_laws::{
    programs_do_what_schedules_reach, schedules_are_bounded, schedules_have_traces_of_the_program,
    settling_keeps_the_meaning, steps_are_complete, steps_are_sound,
};
