//! Normal programs that mean the same are equal: their shape said of trees alone, that normal tables stand for programs of this shape, and
//! that there is one such program for each meaning. Here are the laws; there is no code.
#![tactic(auto)]

mod reached_law;
mod shaped_law;
mod unique_law;

pub use occ_target::{Table, TargetFault, target};
pub use reached_law::shaped_programs_are_targets;
pub use shaped_law::programs_of_tables_are_shaped;
pub use unique_law::normal_bodies_are_one;
