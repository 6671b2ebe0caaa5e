//! The normal program of a table: the program of one fixed shape whose behaviours are those of the table's rows.
#![tactic(auto)]

mod count;
mod events;
mod fault;
mod inputs;
mod normal;
mod program;
mod row;
mod state;
mod widths;

pub use fault::TargetFault;
pub use normal::target;
pub use occ_nform_table::Table;
