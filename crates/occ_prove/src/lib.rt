//! The command `prove`: the steps from the program in one file to the program in another that means the same, law by law, as a script.
//! They are steps from both to the normal program, which is one: the first one's, and behind them the second one's undone.
#![tactic(auto)]

mod command;
mod joining;
mod law;
mod pair;
mod path;
mod proof;
mod proving;
mod returning;

pub use command::prove;
pub use law::undone_steps_lead_back;
