//! Hiding, forgetting and turning on behaviours: the behaviours without a channel's events, and those
//! whose final states are looked at without some bits, or with some bits turned.
#![tactic(auto)]

mod bits;
mod calls;
mod change;
mod changing;
mod forgets;
mod restricts;
mod shifts;

pub use calls::{forget, forget_with, restrict, restrict_with, shift, shift_with};
pub use forgets::Forgets;
pub use restricts::Restricts;
pub use shifts::Shifts;
