//! Two processes side by side: the node of what both do, where they communicate with each other unseen.
#![tactic(auto)]

mod calls;
mod closed;
mod ends;
mod law;
mod manner;
mod merge;
mod resting;
mod steady;
mod step;
mod weaving;

pub use calls::weave;
pub use law::joined_ends_are_joined_states;
pub use manner::Manner;
pub use occ_choice::{
    Both, Branch, MapId, Maps, NodeId, Offers, Row, Unions, World, add, alt, alt_with, least,
    prefix_in, prefix_out, union_with,
};
pub use weaving::Weaver;
