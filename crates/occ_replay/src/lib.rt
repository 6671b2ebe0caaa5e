//! Replays scripts: whether the steps of a script derive its last program from its first, each by a law of the table.
#![tactic(auto)]

mod change;
mod replaying;
mod result;
mod step;

pub use occ_replay_rules::{
    derivations_join_the_same, parts_are_known_up_to_their_greatest_name, scripts_have_one_answer,
};
pub use occ_script::{
    Direction, LawId, LineFault, Path, Raw, Script, ScriptFault, Step, at, name, one_orders,
    one_script, orders, read, replace, resolve, scope_at,
};
pub use replaying::replay;
pub use result::{Joined, Rejected};
