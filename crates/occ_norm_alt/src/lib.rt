//! Inputs, outputs and ALTs in front of what follows them.
#![tactic(auto)]

mod choice;
mod rows;
mod values;

pub use choice::{Alternation, Alternative, Get, Put, input, output};
pub use occ_norm_frame::{
    Accepted, Frame, Normaliser, ending, except, freed, holds, keeps, rebased,
};
