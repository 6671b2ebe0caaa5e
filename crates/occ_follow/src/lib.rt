//! One process after another, on behaviours: where a node ends, a map from final states to nodes goes on.
#![tactic(auto)]

mod calls;
mod follower;
mod nexts;

pub use calls::follow;
pub use occ_choice::{
    AcceptSet, Antichain, Both, MapId, Maps, NodeId, Offers, Row, World, accept_join as join, alt,
    cross, least, prefix_out, without,
};
pub use occ_scope::{Shifts, forget, shift, shift_with};
