//! The names of a part: which stand free, which are written, which channel ends are used; other names and expressions in
//! their place.
#![tactic(auto)]

mod collect;
mod end_set;
mod listing;
mod mention;
mod name_set;
mod renaming;
mod replace;
mod substitution;

pub use end_set::EndSet;
pub use listing::{ends, free, written};
pub use name_set::NameSet;
pub use renaming::{RenameFault, rename};
pub use substitution::substitute;
