//! Parts of scripts: the lines of one process, without replicators. A part is read once, and then resolved in the scope in
//! which it stands. What a part reads as is defined in specs/Parts.antt, and what it is in a scope in specs/Resolving.antt.
#![tactic(auto)]

mod arrays;
mod elements;
mod faults;
mod forming;
mod laws;
mod numbering;
mod raw;
mod resolving;
mod rows;

pub use forming::form;
pub use laws::one_reading_of_a_part;
pub use occ_parse::{
    Bound, Frame, Judged, ParseFault, ParseLayoutPlaced as Placed, Text, Which, judge_rows,
    least_bad, parse,
};
pub use occ_parse_forms::{LexFault, lex_lines as lines, one_form};
pub use raw::Raw;
pub use resolving::resolve;
