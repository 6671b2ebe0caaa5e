//! Names, widths, events and states: the words that all other crates share.
#![tactic(auto)]

mod event;
mod list;
mod memory;
mod names;
mod number;
mod width;

pub use event::{Dir, Event};
pub use list::List;
pub use memory::Memory;
pub use names::{Name, Names};
pub use number::push_number;
pub use width::Width;

/// A state: each variable in scope with its value, in the order of the scope.
pub type State = List<(Name, u8)>;

/// A list of events: a trace, or the events of a set in increasing order.
pub type Events = List<Event>;
