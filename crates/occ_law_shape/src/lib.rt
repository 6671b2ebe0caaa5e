//! How laws look at parts: a process taken apart, lists compared, a place sought in two lists, lists made piece by piece; and what laws ask
//! about all states of a scope, each question decided exactly.
#![tactic(auto)]

mod comparison;
mod conditions;
mod equality;
mod form;
mod lists;
mod macros;
mod made;
mod pieces;
mod places;
mod state_lists;

pub use conditions::{exclude_each_other, is_always, is_exhaustive, is_never};
pub use equality::{Always, Equality, Where};
pub use form::{
    Form, branches_of, choices_of, is_skip, is_stop, is_truth, opened, parts_in_par, parts_in_seq,
};
pub use lists::{Here, behind, only, pair, part_at};
pub use made::{add_copies, alt_of, if_of, in_turn, list_of_two, operated, par_of, seq_of};
pub use occ_law::{Changes, Family, Law, LawId, Place as LawPlace, Store};
pub use pieces::{BranchPiece, ChoicePiece, are_branch_pieces, are_choice_pieces};
pub use places::{Place, somewhere};
pub use state_lists::{branches_equal, cases_equal, each_equal};
