//! The commands `aut` and `promela`, which write a program for other tools: its normal table as a labelled transition system in the
//! Aldebaran format of CADP (cadp.inria.fr/man/aut.html), and the program itself as a model for Spin, which occ_promela makes. And the
//! commands `traces` and `deterministic`, whose verdicts occ_traces finds.
#![tactic(auto)]

mod command;
mod comparing;
mod determining;
mod graph;
mod law;
mod state;
mod text;

pub use command::{aut, promela};
pub use comparing::traces;
pub use determining::deterministic;
pub use graph::{Graph, Label, Move, graph_of};
pub use law::steps_are_those_of_rows;
pub use text::graph_text;
