//! The top call of the workshop: the words of a command line, the files that they name, and the answer, which is of the command's own
//! library.
#![tactic(auto)]

mod answering;
mod explaining;
mod law;
mod top;
mod words;

pub use law::one_answer;
pub use occ_witness::{RealDesk, command_words};
pub use top::run;
