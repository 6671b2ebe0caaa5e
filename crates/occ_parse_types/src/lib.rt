//! What is wrong with the types and the directions of a text's lines.
#![tactic(auto)]

mod asking;
mod directions;
mod expression;
mod line;
mod lost;
mod turns;
mod types;

pub use directions::{direction_fault, direction_fault_in};
pub use occ_parse_scopes::{Scopes, name_fault, name_fault_in};
pub use types::{type_fault, type_fault_in};
