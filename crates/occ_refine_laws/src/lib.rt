//! What the definitions say of refinement: two programs mean the same exactly where each refines the other, and what isn't of a program's
//! environment can be refused. There is no code: each law is the contract of a function without a body of its own.
#![tactic(auto)]

mod law;

pub use law::{outside_is_refused, same_where_each_refines};
