use occ_script_write::Done;
use occ_syntax::{List, Program};

/// Steps that were taken, in order.
pub type Dones = List<Done>;

/// What an engine made of a program: the steps that were taken, and the program to which they lead.
#[derive(Drop)]
pub struct Outcome {
    pub steps: Dones,
    pub to: Program,
}
