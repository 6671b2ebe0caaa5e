//! Choice on behaviours: unions, inputs and outputs, and the ALT of enabled branches.
#![tactic(auto)]

mod alternatives;
mod branch;
mod join;
mod prefix;
mod unions;
mod unite;

pub use alternatives::{alt, alt_with};
pub use branch::Branch;
pub use occ_node::{
    AcceptSet, Antichain, Both, Call, Dir, Event, MapId, Maps, Memo, Memory, Name, NodeId, Offers,
    Row, SetId, Store, World, cross, join as accept_join, least, without,
};
pub use prefix::{prefix_in, prefix_out};
pub use unions::Unions;
pub use unite::{add, union, union_with};
