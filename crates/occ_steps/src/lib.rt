//! The command `steps`: of a program, and of a schedule if there is one, the steps that can be taken there, and how each part stands.
#![tactic(auto)]

mod command;
mod finding;
mod listing;

pub use command::{steps, steps_at_start};
