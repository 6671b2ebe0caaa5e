//! Names in their scopes: the table of what is declared, and the names of a text that are wrong.
#![tactic(auto)]

mod law;
mod names;
mod passing;
mod reach;
mod scopes;
mod uses;

pub use law::some_values_are_values_that_the_indices_take;
pub use names::{name_fault, name_fault_in};
pub use passing::{counter_of, entry_of, sort_of};
pub use scopes::Scopes;
