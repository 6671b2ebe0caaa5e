//! The engine: laws applied to parts of programs, by orders, or to expand a PAR.
#![tactic(auto)]

mod applying;
mod exchange;
mod expansion;
mod fault;
mod following;
mod moving;
mod outcome;
mod wishes;

pub use applying::apply;
pub use expansion::expand;
pub use fault::{ApplyFault, EngineFault};
pub use following::transform;
pub use occ_law_any::{Accepted, holds, keeps_exchanged};
pub use occ_replay_rules::laws_are_sound;
pub use occ_script_write::{Done, LawId, Store};
pub use outcome::{Dones, Outcome};
