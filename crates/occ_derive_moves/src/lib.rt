//! Steps of derivations: laws used at places of a process, one after the other. They are the moves of the engine but for the bound on
//! the lines of the parts that come in. Rows of moves of a part, said of the whole in which the part stands. And words for the programs
//! on the way: the names that a part declares, how heavy it is, guards and ends of a normal program. Here are the definitions and their
//! laws; there is no code.
#![tactic(auto)]

mod law;
mod moving;

pub use law::{
    moves_are_steps, narrow_steps_are_moves, rows_make_steps, steps_go_on, steps_keep_the_meaning,
    steps_keep_the_rules, steps_lead_to_one_process,
};
pub use moving::{
    open_parts_lift, rows_go_on, rows_keep_the_meaning, rows_keep_the_rules, rows_make_moves,
    sparing_parts_lift, sparing_rows_are_rows,
};
pub use occ_replay_rules::{Direction, Path, at, replace, scope_at};
pub use occ_target_laws::{Table, TargetFault, target};
