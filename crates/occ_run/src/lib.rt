//! Stepping a program: a machine that takes one numbered step after another, and tells how it stands.
#![tactic(auto)]

mod answer;
mod apply;
mod control;
mod effect;
mod found;
mod law;
mod machine;
mod meeting;
mod moving;
mod number;
mod offers;
mod pairs;
mod place;
mod run;
mod runs;
mod settle;
mod stand;
mod stepping;
mod table;
mod together;
mod within;

pub use answer::{Move, Stand, StepFault};
pub use apply::{effect_on, inside, value_inside};
pub use control::{Control, is_over};
pub use effect::{Effect, Next, Offer};
pub use law::{
    numbers_that_are_followed_lead, what_a_stand_shows_belongs_to_the_program,
    what_is_seen_is_a_trace_of_the_program,
};
pub use machine::{Machine, Point};
pub use meeting::{Met, Pair, pair_at};
pub use occ_behaviour::{
    Behaviour, Last, Side, Verdict, behaviour_text, interface_bits, push_event, push_state,
    verdict_text,
};
pub use occ_run_steps::events_are_of_the_interface;
pub use occ_usage::{Accepted, UsageFault, check, keeps_scope, keeps_types};
pub use offers::process_offers;
pub use pairs::{add_alone, is_same};
pub use place::Place;
pub use run::Run;
pub use stand::held;
pub use stepping::{point_of, start};
pub use together::both_runs;
pub use within::{of_variable, off_channels};
