//! Sets of events that a stable process accepts, and their antichains: the least acceptances, by
//! which its refusals are given (Hoare 1985; Roscoe 1998).
#![tactic(auto)]

mod antichain;
mod compared;
mod law;
mod pairs;
mod set;

pub use antichain::{Antichain, join, least, without};
pub use law::refusals_tell_antichains;
pub use occ_base::{Dir, Event, Memory, Name};
pub use pairs::cross;
pub use set::AcceptSet;
