//! The keyword lines of scripts and orders, and the sections that they begin; and parts of programs by their paths, read, found and
//! exchanged. A path is the numbers on the way down from a program's body, each the place of a part from 0.
#![tactic(auto)]

mod direction;
mod framing;
mod keyword;
mod laws;
mod part;
mod putting;
mod reading;
mod section;
mod splitting;
mod text;

pub use direction::Direction;
pub use framing::{framed, is_blank, last_line};
pub use keyword::{Head, is_keyword, is_line, step_line};
pub use laws::{same_parts_make_same_programs, scopes_at_paths};
pub use part::{at, scope_at};
pub use putting::{put, replace};
pub use reading::lines;
pub use section::{Format, Section, Sections};
pub use text::{cut, path};

/// The numbers on the way down to a part, from the outside in.
pub type Path = occ_lex::List<u32>;

pub use occ_lex::{
    Keyword, Line, LineFault, Sign, Symbol, Token, TokenKind, code, first_row, line as lex_line,
    lines as lex_lines, numbered, read, rows as lex_rows,
};
pub use occ_usage::{Accepted, NameSet, RenameFault, free, rename};
