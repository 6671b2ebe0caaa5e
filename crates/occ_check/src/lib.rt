//! The commands `check` and `explain` of the workshop: what is wrong with the text in a file, told with the place and what to write.
#![tactic(auto)]

mod causes;
mod command;
mod others;

pub use command::check;
pub use others::explain;
