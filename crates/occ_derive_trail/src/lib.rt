//! The steps of a derivation as a strategy proposes them: where it stands, and the steps so far.
#![tactic(auto)]

mod build;
mod frame;
mod lists;
mod lost;
mod piece;
mod trail;

pub use build::{
    alt_of, assign_of, constant, if_of, pairs_of, par_of, seq_of, seq_of_two, unseen, var_of,
};
pub use frame::Frame;
pub use lists::{branches_of, choices_of, parts_of};
pub use lost::Lost;
pub use occ_script_write::{Law, NameSet, Path, RenameFault, at, free, numbered, rename, replace};
pub use piece::Piece;
pub use trail::{Dones, Trail};
