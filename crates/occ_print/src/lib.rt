//! Programs as text: two spaces for each level, declared names on lines of their own, and as few brackets as the language allows. An
//! operand that is an operation stands in brackets, except the left operand of AND that is an AND, and the left operand of OR that is an
//! OR. docs/LANGUAGE.md has the rules. And which names a part needs of a table of names.
#![tactic(auto)]

mod expression;
mod greatest;
mod law;
mod level;
mod line;
mod part;
mod program;
mod simple;
mod spelling;
mod widest;

pub use greatest::greatest_name;
pub use law::parts_are_known_up_to_their_greatest_name;
pub use occ_parse_forms::one_form;
pub use program::{print, print_part};
pub use widest::line_tokens;
