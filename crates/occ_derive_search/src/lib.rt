//! Steps checked one by one, whether they are a derivation; codes of derivations as rows of digits; and a search that goes through all
//! codes until one is a derivation.
#![tactic(auto)]

mod attempt;
mod codes;
mod counter;
mod exchange;
mod following;
mod instruction;
mod law;
mod longer;
mod machine;
mod obeying;
mod searching;
mod walk;

pub use codes::steps_of;
pub use following::follow;
pub use instruction::{DIGITS, INSTRUCTIONS, Instruction};
pub use law::derivations_have_codes;
pub use occ_derive_moves::{
    Table, TargetFault, moves_are_steps, narrow_steps_are_moves, steps_go_on,
    steps_keep_the_meaning, target,
};
pub use occ_engine::Outcome;
pub use searching::search;
