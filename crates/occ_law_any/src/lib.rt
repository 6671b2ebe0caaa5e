//! Any law of the table: whether it holds between two parts, what it makes of a part at a place, and the first change that it makes.
#![tactic(auto)]

mod asked;
mod first;
mod holding;
mod right_sides;

pub use first::direct;
pub use holding::holds;
pub use occ_law_alt::{Form, alt_of, opened};
pub use occ_usage::{Accepted, UsageFault, check, keeps_exchanged};
pub use right_sides::right;
