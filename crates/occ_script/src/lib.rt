//! Scripts and orders as texts. A script derives one program from another by laws: its first line, the program behind FROM,
//! the steps, each with its part, and the program behind TO. Orders ask for laws at paths of a program.
//!
//! specs/Scripts.antt defines which text is a script and as which, and specs/Refusals.antt the first fault of one that is none.
//! specs/Orders.antt does both for orders.
#![tactic(auto)]

mod content;
mod fault;
mod forming;
mod judging;
mod law;
mod listing;
mod part;
mod reading;
mod script;

pub use content::Content;
pub use fault::ScriptFault;
pub use law::{one_orders, one_script};
pub use listing::orders;
pub use occ_law::{Law, LawId, Store, TABLE, find, name};
pub use occ_parse_part::{
    Bound, ParseFault, Raw, Text, Which, form, one_reading_of_a_part, parse, resolve,
};
pub use occ_script_lines::{
    Direction, Format, Keyword, LineFault, Path, Sections, Sign, Symbol, Token, TokenKind, at,
    code, first_row, is_blank, last_line, lex_line as line, lex_lines, lex_rows as rows,
    lines as script_lines_lines, path as script_lines_path, read as lex_read, replace, scope_at,
    step_line,
};
pub use occ_syntax::{Memory, push_number};
pub use reading::read;
pub use script::{Order, Orders, Script, Step, Steps};
