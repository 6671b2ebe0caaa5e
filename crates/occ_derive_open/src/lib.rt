//! A state of a program and what is left to do in it, as one process: the steps that carry it to its next choice, and that make
//! this choice an ALT of constant guards.
#![tactic(auto)]

mod advancing;
mod constants;
mod joining;
mod layers;
mod opening;
mod prefixing;
mod row;
mod spine;
mod table;
mod turning;

pub use advancing::advance;
pub use occ_derive_expose::apart;
pub use opening::open;
pub use prefixing::prefix;
pub use table::cases;
