//! Assignments in front of what follows them, and parts in a row that don't communicate, as one function on states.
#![tactic(auto)]

mod digits;
mod laid;
mod lists;
mod moves;
mod run;
mod writes;

pub use occ_norm_arrange::flattened;
pub use run::straight;
pub use writes::{Assignment, Write, applied, assigned, writes_of};
