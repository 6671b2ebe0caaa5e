//! A text's lines as a forest of forms: the definitions of what is wrong with a program's names, types, directions and sizes, and of the
//! program that its lines stand for; and the laws that lines in order stand for a program that keeps names, types and directions.
#![tactic(auto)]

mod fault;
mod law;
mod node;
mod sort;

pub use fault::{NameFault, TypeFault};
pub use law::{forms_say_what_their_symbols_say, lines_in_order_keep_types, scopes_stay_small};
pub use node::{Node, Nodes};
pub use occ_meaning::Memory;
pub use occ_parse_forms::{
    Declared as ParseFormsDeclared, Form, Group, LineFault, Param, Row, Sign, Symbol, one_form,
    read, read_form, rows,
};
pub use sort::{Entry, Sort};
