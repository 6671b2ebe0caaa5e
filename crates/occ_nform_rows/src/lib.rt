//! The row of a table that a node of the diagrams is: its ends as states, its acceptances and its offers, each list in the
//! order of the lines of a normal text.
#![tactic(auto)]

mod ends;
mod lister;
mod members;
mod offers;
mod places;
mod row;
mod sets;

pub use lister::Lister;
pub use occ_compare::{NodeId, Root, World, assignment};
pub use occ_nform_table::{
    RowNumbers, Table, TableRow, TableRows, interface_bits, push_state, row_text,
};
