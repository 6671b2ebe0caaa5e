//! Decides the laws of declared variables and channels. What the laws ask of parts is there for right sides too.
#![tactic(auto)]

mod choices;
mod decide;
mod declaration;
mod input;
mod mentions;
mod moves;
mod pairs;
mod renaming;
mod turns;
mod unheard;
mod values;

pub use decide::holds;
pub use mentions::{is_on, is_unused, is_unused_in_all, some_condition_names, some_guard_names};
pub use pairs::other_values_name;
pub use values::count_of;
