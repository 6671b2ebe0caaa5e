//! Ordered reduced decision diagrams whose nodes are shared (Bryant 1986): functions from assignments of bits to labels, sets of
//! assignments, and the memo of operations. One function has one number, and so has one set.
#![tactic(auto)]

mod diagram_law;
mod label;
mod law;
mod memo;
mod node;
mod set;
mod store;
mod table;

pub use diagram_law::functions_have_one_number;
pub use label::Label;
pub use law::sets_have_one_number;
pub use memo::{Call, Memo};
pub use node::{Decision, Node};
pub use occ_base::{List, Memory, Name, Width};
pub use set::SetId;
pub use store::Store;
pub use table::Table;
