//! Schedules: a state of a program's parameters and the numbers of steps. How their texts are read, where they lead and what is shown
//! there; and a schedule that shows a given behaviour, found by a search along its trace.
#![tactic(auto)]

mod arrivals;
mod following;
mod law;
mod path;
mod schedule;
mod search;
mod text;
mod witness_text;
mod witnessing;

pub use following::{Followed, Shown, follow};
pub use law::one_following;
pub use occ_behaviour_read::{
    ClaimFault, Refined, States, Table, TableFault, TableRow, a_normal_text_is_its_tables,
    behaviours_are_read_as_written, faults_are_those_of_what_is_written,
    faults_stand_where_nothing_goes_on, nform_read_read, normal_texts_are_read_as_written,
    one_deadlock, one_refinement, read as behaviour_read_read,
    texts_of_programs_are_those_of_their_tables,
};
pub use occ_member::{ends, fails};
pub use occ_run::{
    Accepted, Behaviour, Last, Move, Side, Stand, StepFault, UsageFault, Verdict, behaviour_text,
    check, interface_bits, keeps_scope, keeps_types, push_event, push_state, start, verdict_text,
};
pub use schedule::{Schedule, ScheduleFault, read};
pub use text::followed_text;
pub use witnessing::{Witness, find_witness};
