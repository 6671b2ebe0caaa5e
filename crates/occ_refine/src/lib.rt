//! The verdict on two accepted programs of one interface, whether one refines the other, and whether a program can be stuck: by the rows of
//! a world, and said of behaviours alone.
#![tactic(auto)]

mod ends;
mod events;
mod law;
mod near;
mod offers;
mod pairs;
mod refine;
mod roots;
mod sets;
mod step;
mod stuck;
mod verdict;
mod walk;

pub use ends::least_extra;
pub use law::{one_verdict, refined_both_ways};
pub use near::{distances, near_at, shortest};
pub use occ_norm::{
    AcceptSet, Accepted, Behaviour, Last, NodeId, Offers, Refined as CompareRefined, Root, Row,
    SetId, Store, World, assignment, in_order, last_number, least as accept_least, normalise,
    written,
};
pub use pairs::Pair;
pub use refine::{deadlocked, refined};
pub use roots::{pair_at, refines};
pub use step::stand;
pub use stuck::{deadlock, node_at};
pub use verdict::decide;
pub use walk::Frame;
