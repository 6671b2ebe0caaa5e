//! Rows of command lines: tables in plain text, of which each case has the words of a command line, the files that it reads, and the
//! status and the bytes that are expected. A program that has a top call reads a table block by block, runs each case over its desk,
//! and asks whether the answer is right. README.md says how a table is written.
#![tactic(auto)]

mod entry;
mod table;

pub use table::Table;
