//! What becomes of each text that is to be a script: it is one or has a first fault, and a script joins its programs or has a first cause for
//! which it doesn't. The reader and the replay are called, and say so by their contracts.
#![tactic(auto)]

mod scripts;

pub use occ_syntax::Memory;
pub use scripts::replays_are_told;
