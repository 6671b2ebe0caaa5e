//! Single behaviours of a program, the verdict on two programs, and how both are written; the places of channels and the bits
//! of an interface.
#![tactic(auto)]

mod behaviour;
mod places;
mod text;

pub use behaviour::{Behaviour, Last, Side, Verdict};
pub use places::{interface_bits, place_in};
pub use text::{behaviour_text, push_event, push_set, push_state, verdict_text};
