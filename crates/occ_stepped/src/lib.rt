//! What the command `steps` shows of an accepted program behind a schedule: the steps that can be taken there, and how its parts stand.
#![tactic(auto)]

mod heading;
mod leading;
mod showing;

pub use leading::{Led, beginning, lead};
pub use occ_run_schedule::{Followed, Schedule, ScheduleFault, read};
pub use showing::show;
