//! What processes do as it is seen from outside, and which behaviour is the first that only one of two has; and the verdict on two
//! roots of one world by a fixed walk.
#![tactic(auto)]

mod ends;
mod events;
mod law;
mod offers;
mod places;
mod refined;
mod roots;
mod sets;
mod step;
mod walk;

pub use events::{in_order, is_less, list_order, listed};
pub use law::{one_deadlock, one_refinement};
pub use occ_behaviour::{Behaviour, Last, Side, Verdict, behaviour_text, verdict_text};
pub use occ_bits::{SetId, Store, Table, equal_under, named_bits};
pub use occ_node::{AcceptSet, MapId, NodeId, Offers, Root, Row, World, least};
pub use offers::refusal;
pub use places::{assignment, last_number, written};
pub use refined::Refined;
pub use roots::{compare, same_root};
