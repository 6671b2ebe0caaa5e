//! Superpositions brought together: each event once, and at the end each offer and each acceptance as a normal program has them.
#![tactic(auto)]

mod absorbing;
mod alt;
mod merging;
mod moving;
mod orders;
mod restoring;
mod unifying;

pub use merging::merge;
pub use occ_derive_trail::{
    Dones, Frame, Lost, Piece, Trail, alt_of, assign_of, constant, if_of, seq_of, seq_of_two,
    unseen, var_of,
};
pub use restoring::restore;
pub use unifying::unify;
