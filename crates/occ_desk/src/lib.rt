//! Desks: where a program's files are read from and its output is written to.
#![tactic(auto)]

mod desk;
mod memory;
mod real;

pub use desk::{Desk, ReadError, WriteFailed, send};
pub use memory::MemoryDesk;
pub use occ_base::{Dir, Event, Events, Memory, Name, Names, State, Width};
pub use real::RealDesk;
