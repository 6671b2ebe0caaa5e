//! A text of which something is to be told: its rows and tokens, also where they are faulty, and what is told of them, with carets.
#![tactic(auto)]

mod kind;
mod lead;
mod piece;
mod source;
mod told;

pub use kind::TextKind;
pub use lead::{Lead, Said, refusal_text, said_of};
pub use occ_lex::Memory;
pub use piece::{Piece, Put};
pub use source::{Row, Source, Tok, TokKind};
pub use told::{Mark, Span, Told, write_all, write_told};
