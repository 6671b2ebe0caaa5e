//! Decides the laws of ALT, and writes their right sides; and how lists of branches are taken apart for that.
#![tactic(auto)]

mod between;
mod case;
mod decide;
mod fronts;
mod guards;
mod lacking;
mod least;
mod made;
mod never;
mod order;
mod parted;
mod placed;
mod places;
mod right_placed;
mod search;
mod simple;
mod table;
mod whole;

pub use decide::holds;
pub use fronts::{alt_first, behind, skip_first};
pub use guards::{are_events, are_plain_events, has_skip, is_event};
pub use least::alt_pair;
pub use occ_law_shape::{Changes, Family, Form, LawId, LawPlace as Place, Store, alt_of, opened};
pub use places::is_plain_event;
pub use table::right;
