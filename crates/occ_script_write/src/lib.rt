//! Scripts as they are written: the program that a derivation begins with, its steps, and the program that it comes to.
#![tactic(auto)]

mod line;
mod writing;

pub use occ_law::{Law, LawId, Store, names_are_distinct};
pub use occ_print::{
    greatest_name, line_tokens, one_form, parts_are_known_up_to_their_greatest_name,
};
pub use occ_script_lines::{
    Accepted, Direction, NameSet, Path, RenameFault, at, free, numbered, rename, replace, scope_at,
};
pub use writing::{Done, write};
