//! Decides the laws of IF, and writes their right sides.
#![tactic(auto)]

mod choices;
mod chosen;
mod decide;
mod made;
mod placed;
mod places;
mod right_placed;
mod simple;
mod table;
mod under;
mod whole;

pub use decide::holds;
pub use table::right;
