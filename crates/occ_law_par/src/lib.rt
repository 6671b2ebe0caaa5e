//! Decides the laws of PAR, and writes their right sides.
#![tactic(auto)]

mod assign;
mod choices;
mod decide;
mod expand;
mod made;
mod meet;
mod order;
mod pairs;
mod parts;
mod placed;
mod places;
mod right_expand;
mod right_parts;
mod running;
mod table;
mod whole;

pub use decide::holds;
pub use table::right;
