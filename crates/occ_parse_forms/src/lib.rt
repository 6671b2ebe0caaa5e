//! The lines of a text by their forms: what each line says, read from its symbols alone.
#![tactic(auto)]

mod cursor;
mod declaration;
mod expression;
mod fault;
mod form;
mod item;
mod laws;
mod line;
mod phrase;
mod reading;

pub use form::{Count, Declaration, Declared, Form, Group, Item, Items, Param, Times, Wants};
pub use laws::one_form;
pub use occ_lex::{
    Keyword, LexFault, Line, LineFault, Row, Sign, Symbol, Symbols, lines as lex_lines, read, rows,
};
pub use phrase::{Index, Phrase, Phrases};
pub use reading::read_form;
