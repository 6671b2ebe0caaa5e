//! The normaliser: the behaviours of a program from each of its initial states, as one map of nodes.
#![tactic(auto)]

mod after;
mod normal;

pub use normal::normalise;
pub use occ_compare::{
    AcceptSet, Behaviour, Last, MapId, NodeId, Offers, Refined, Root, Row, SetId, Store, Verdict,
    World, assignment, compare, in_order, is_less, last_number, least, listed, refusal, written,
};
pub use occ_norm_alt::Accepted;
