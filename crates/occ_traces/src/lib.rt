//! Whether each trace of a second program is one of a first program's: by the rows of a world, and said of behaviours alone.
#![tactic(auto)]

mod choices;
mod determined;
mod look;
mod made;
mod marks;
mod programs;
mod roots;
mod walk;

pub use choices::Choice;
pub use determined::{Undetermined, find_undetermined};
pub use programs::traced;
pub use roots::trace_refines;
