//! The parts of a PAR side by side, as maps from states to nodes; and the states that can be reached in front of each part of a SEQ.
#![tactic(auto)]

mod choices;
mod forward;
mod joint;
mod limits;
mod parallel;
mod sets;
mod users;

pub use choices::states_left;
pub use forward::{between, reached};
pub use limits::{all_states, limited, states_between};
pub use parallel::{Sides, side_frame, written_bits};
pub use users::Users;
