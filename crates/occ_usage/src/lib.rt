//! The rules that a program keeps: of names, types and directions, and of what the parts of a PAR may share; and whether a program keeps
//! them after a part is exchanged, judged by the two parts where the new one uses no more than the old one.
#![tactic(auto)]

mod accepted;
mod checker;
mod checking;
mod fault;
mod judge;
mod keeping;
mod kinds;
mod laws;
mod sets;
mod share;
mod sharing;
mod types;
mod typing;
mod using;

pub use accepted::Accepted;
pub use checking::check;
pub use fault::UsageFault;
pub use judge::keeps_exchanged;
pub use keeping::{keeps, keeps_scope, keeps_types};
pub use laws::parts_that_use_no_more_may_be_put_in;
pub use occ_names::{NameSet, RenameFault, ends, free, rename, written};
