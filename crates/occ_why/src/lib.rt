//! The command `why` of the workshop: why two programs differ, and why a program gets stuck.
#![tactic(auto)]

mod command;
mod explaining;
mod given;
mod reading;
mod shown;

pub use command::{why, why_apart};
pub use given::Given;
