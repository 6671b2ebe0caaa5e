//! Operations on whole maps from states to nodes, as methods of `Normaliser`; what is in scope where a part of a program stands; where a
//! part ends; and in specs/ the map of a part and what follows it.
#![tactic(auto)]

mod bits;
mod calls;
mod changes;
mod ends;
mod frame;
mod frame_nodes;
mod frame_sets;
mod lifting;
mod nodes;
mod normaliser;
mod sequel;
mod sets;
mod simple;
mod step;

pub use changes::{depth, freed, is_full, rebased, support, turned_on};
pub use ends::{ending, except};
pub use frame::{Frame, bits_from, has_bit, lowest, with_bit};
pub use frame_nodes::node_at;
pub use frame_sets::{digits, holds};
pub use lifting::Lifting;
pub use normaliser::Normaliser;
pub use occ_bits::{
    Call, Memo, SetId, Store, WordBits, condition, either, identity, leading, word,
};
pub use occ_follow::shift_with;
pub use occ_usage::{Accepted, ends as names_ends, keeps, written};
pub use occ_weave::{MapId, NodeId, prefix_in};
