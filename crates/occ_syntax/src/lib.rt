//! The syntax trees of the language, the value of an expression in a state, and in specs/ what programs mean.
#![tactic(auto)]

mod copy;
mod counts;
mod eval;
mod expr;
mod law;
mod proc;
mod same;
mod scope;

pub use counts::{controls, interface_bits, scope_bits};
pub use eval::value;
pub use expr::{Expr, Exprs, Guard, NameList, Op, Wait};
pub use law::{empty_if_is_stop, empty_seq_is_skip, seq_of_one_is_that_part};
pub use occ_base::{Dir, Event, Events, List, Memory, Name, Names, State, Width, push_number};
pub use proc::{Alternatives, Choices, Proc, Procs};
pub use same::{
    same_branch, same_branches, same_choices, same_expr, same_exprs, same_guard, same_names,
    same_parameters, same_proc, same_procs, same_wait, same_width,
};
pub use scope::{Kind, Program, Scope};
