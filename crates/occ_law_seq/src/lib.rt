//! Decides the laws of SEQ, of assignment, and of communication as choice.
#![tactic(auto)]

mod assigned;
mod assignment;
mod behind;
mod communication;
mod decide;
mod expressions;
mod first;
mod kept;
mod pairs;
mod places;
mod sequence;

pub use assigned::spare_all;
pub use assignment::are_variables;
pub use behind::divided;
pub use decide::holds;
pub use first::assigned_first;
pub use occ_law_shape::{
    Form, Here as LawShapeHere, Law, LawId, LawPlace as Place, add_copies, alt_of, branches_of,
    choices_of, if_of, in_turn, is_skip, is_stop, only, opened, pair, part_at, parts_in_seq,
    seq_of,
};
pub use pairs::Pairs;
