//! Expressions as sets of states: which bits stand for which variable, conditions as sets, words as binary digits; and functions on states
//! as lists of sets.
#![tactic(auto)]

mod circuits;
mod compose;
mod digits;
mod equal;
mod expr;
mod law;
mod layout;
mod named;

pub use compose::{either, identity, leading};
pub use digits::WordBits;
pub use equal::equal_under;
pub use expr::{condition, word};
pub use law::assignments_are_states;
pub use layout::Layout;
pub use named::named_bits;
pub use occ_dd::{Call, Memo, SetId, Store, Table};
