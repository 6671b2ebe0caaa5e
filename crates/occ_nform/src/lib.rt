//! Normal texts of programs: the normal table of a root, numbered by height and then by text; and the law that two programs with the same
//! parameters have one normal text exactly where they mean the same.
#![tactic(auto)]

mod canon;
mod drafter;
mod figures;
mod heights;
mod law;
mod level;
mod lines;
mod marks;
mod numbering;
mod order;
mod root;
mod starts;
mod text;

pub use canon::{measured, normal_table, normal_text};
pub use figures::{Counts, count};
pub use law::{normal_texts_tell_programs_apart, programs_have_one_table};
pub use root::tabulate;
pub use text::{bound_rows, table_text, write};
