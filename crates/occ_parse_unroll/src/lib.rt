//! The limits of a program's lines, judged before a copy is made, and the program that the lines stand for.
#![tactic(auto)]

mod bits;
mod context;
mod counting;
mod expression;
mod limits;
mod line;
mod lined;
mod naming;
mod numbering;
mod program;
mod reading;
mod unrolling;
mod values;

pub use bits::bits_fault;
pub use context::Context;
pub use counting::controls;
pub use expression::{operand_width, own};
pub use limits::count_fault;
pub use naming::element;
pub use numbering::{InTable, Numbering};
pub use program::{Unrolled, unroll};
pub use reading::{condition, declaration, group, is_guard, nested};
pub use unrolling::slot;
pub use values::{Present, Values};
