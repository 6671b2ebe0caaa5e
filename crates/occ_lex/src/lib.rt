//! The lines and tokens of a text, in the lexical form of occam (INMOS, occam 2 Reference Manual, 1988) with signs, reserved words and
//! comments of its own; tokens as symbols, by which no crate above sees bytes; and names that a table doesn't have yet.
//!
//! A text is bytes. Its lines end with a line feed; a carriage return directly before it is dropped, and the last line feed may be
//! missing. `--` begins a comment up to the line's end, in which every byte is allowed. A line of spaces alone is blank, also where a
//! comment follows, and is skipped. The level of a line is half its leading spaces. Spaces may stand between tokens, and the longest
//! token in front is taken.
//!
//! `read` and `lines` read a whole text. `first_row`, `code` and `line` read one line of it, for readers of formats that have lines of
//! their own between the others. A symbol is a reserved word or a sign by what it is, a numeral by its value, and a name by its number
//! in a name table.
#![tactic(auto)]

mod fault;
mod fresh_names;
mod laws;
mod reading;
mod row;
mod scan;
mod spelling;
mod symbol;
mod symbol_laws;
mod symbol_reading;
mod token;
mod words;

pub use fault::{LexFault, LineFault, RowFault};
pub use fresh_names::numbered;
pub use laws::{printed_lines_have_their_words, printed_text_is_read, reading_is_of_its_text};
pub use occ_base::{Dir, Event, Events, List, Memory, Name, Names, State, Width, push_number};
pub use reading::{Reading, lines, read};
pub use row::{code, first_row, line};
pub use spelling::{is_name_byte, kind_of, numeral_value};
pub use symbol::{Keyword, Row, Sign, Symbol, Symbols};
pub use symbol_laws::{each_token_has_a_symbol, names_are_known};
pub use symbol_reading::rows;
pub use token::{Line, Token, TokenKind, Tokens};
