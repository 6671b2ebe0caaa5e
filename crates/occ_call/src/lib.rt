//! What a top call does around its answer: it loads the files that the words name, and sends the reply, by which the process gets its
//! status.
#![tactic(auto)]

mod loading;
mod replying;
mod starting;

pub use loading::{
    Contents, Loaded, MOST_BYTES, MOST_SCRIPT_BYTES, MOST_TABLE_BYTES, Named, Stop, Wanted, load,
};
pub use occ_desk::{Desk, MemoryDesk, RealDesk};
pub use replying::{Reply, send_reply};
pub use starting::command_words;
