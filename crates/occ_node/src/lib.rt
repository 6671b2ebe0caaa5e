//! Behaviours as rows: a node stands for the failures and the ends of a process, and one behaviour
//! has one node.
#![tactic(auto)]

mod compared;
mod find;
mod label;
mod law;
mod node;
mod offers;
mod root;
mod row;
mod world;

pub use law::{behaviours_have_one_number, rows_are_recovered};
pub use node::NodeId;
pub use occ_accept::{AcceptSet, Antichain, Dir, Event, Memory, Name, cross, join, least, without};
pub use occ_mdd::{Both, Call, MapId, Maps, Memo, SetId, Store};
pub use offers::Offers;
pub use root::Root;
pub use row::Row;
pub use world::World;
