//! The command `draw`: pictures of normal texts in the DOT language of Graphviz, and the steps of a script as a list. The language is
//! published at graphviz.org/doc/info/lang.html, and what a label shows at graphviz.org/docs/attr-types/escString.
#![tactic(auto)]

mod command;
mod edges;
mod entries;
mod fault;
mod law;
mod line;
mod listing;
mod normal;
mod picture;
mod refusal;
mod rows;
mod spans;
mod strings;
mod telling;
mod words;

pub use command::draw;
pub use edges::Edge;
pub use fault::{Lack, Untold};
pub use law::{a_label_is_shown, edges_are_offers, one_answer};
pub use occ_syntax::Memory;
pub use picture::dot_text;
pub use telling::list;
