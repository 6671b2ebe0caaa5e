//! What is told beside a refused program's errors: warnings of an accepted one, and the other texts that are refused.
#![tactic(auto)]

mod choices;
mod explain;
mod lines;
mod told;
mod uses;
mod values;
mod warn;

pub use explain::explained;
pub use occ_check_find::{
    Lead, Look, Piece, Put, Refused, Source, errors, refusal_text, said_of, write_all,
};
pub use warn::{count_parts, warnings};
