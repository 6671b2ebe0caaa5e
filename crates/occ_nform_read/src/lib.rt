//! How normal texts are read: words, values, states, events and lines, and a whole text as a table, or its first fault.
#![tactic(auto)]

mod events;
mod lines;
mod params;
mod places;
mod reach;
mod reading;
mod sections;
mod sets;
mod states;
mod text;
mod whole;
mod words;

pub use events::{event_of, events_of, set_of};
pub use occ_nform_table::{States, Table, TableFault, TableRow, a_normal_text_is_its_tables};
pub use reading::first_line;
pub use states::state_of;
pub use text::read;
pub use whole::judge;
pub use words::{before, behind, between, cut, small_number_of};
