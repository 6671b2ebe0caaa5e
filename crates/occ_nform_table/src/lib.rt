//! Normal texts as tables: in specs/ how a text is read, what a normal text is, how a table is written and which behaviours its rows have;
//! and the laws that a normal text is its table's, and that two tables whose states have the same behaviours are one.
#![tactic(auto)]

mod law;
mod line_text;
mod places;
mod table;
mod table_text;
mod text;

pub use law::one_normal_table;
pub use line_text::a_normal_text_is_its_tables;
pub use occ_behaviour::{interface_bits, push_state};
pub use occ_lex::{TokenKind, first_row, kind_of};
pub use places::{rank, state_place};
pub use table::{
    EventSets, RowNumbers, States, Table, TableFault, TableOffers, TableRow, TableRows,
};
pub use table_text::{a_normal_table_reads_back, one_text_one_row};
pub use text::row_text;
