//! Whole texts as programs, and what a text reads as: its first fault, or a program. A text is judged in this order: its length; the least
//! line that has a fault of tokens, is over a limit of lines or is badly laid out; names; types; directions; the limits of programs. The
//! language is that of C. A. R. Hoare and A. W. Roscoe (The laws of occam programming, 1988), with arrays and replicators.
#![tactic(auto)]

mod bound;
mod drafting;
mod fault;
mod header;
mod laws;
mod laying;
mod limits;
mod reading;
mod stopping;

pub use bound::Bound;
pub use fault::{ParseFault, Which};
pub use laws::one_reading;
pub use occ_parse_layout::{Frame, Placed as ParseLayoutPlaced, grown, least_bad};
pub use occ_parse_types::{Scopes, direction_fault_in, name_fault_in, type_fault_in};
pub use occ_parse_unroll::{Context, Numbering, element, slot};
pub use occ_usage::NameSet;
pub use reading::{LineNumbers, Text, parse};
pub use stopping::{Judged, judge_rows};
