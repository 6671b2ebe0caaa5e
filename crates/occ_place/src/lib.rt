//! Where a program stands in its text: the parts of the program, the lines of its processes, and what each part does next or waits for.
#![tactic(auto)]

mod cells;
mod doing;
mod layout;
mod listing;
mod marking;
mod places;
mod row;
mod rows;
mod source;
mod spans;
mod standing;
mod table;
mod telling;
mod walking;
mod worth;

pub use cells::{
    event_cell, line_cell, part_name, push_values, statement_cell, values_cell, who_cell,
};
pub use doing::{Act, Deed, Told, tell};
pub use listing::{Listing, list_steps, told_at};
pub use marking::End;
pub use places::{Marked, Places};
pub use row::Row;
pub use rows::push_rows;
pub use source::Source;
pub use spans::{Span, spans_of};
pub use standing::{Stand, Way, stands};
pub use table::{Columns, Line, push_table};
pub use telling::{channel, push_part, push_stands, way_cell};
pub use walking::{Branch, Counter, Layout, NOWHERE, Part, Site};
