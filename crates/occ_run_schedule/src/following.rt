ghost use Rattle.std.specs.Prelude.{◌≡◌, Err, IfOk, List, MatchOption, Ok, true, ℕ};
ghost use Rattle.occ_run.specs.occ_behaviour.States.{is_state};
ghost use Rattle.occ_run.specs.Configurations.{followed};
ghost use Rattle.occ_run.specs.Machines.{configuration};
ghost use Rattle.occ_run_schedule.specs.Following.{FollowedIsNamed, IsFollowed, ParametersAreNamed};

use crate::Schedule;
use occ_run::{
    Accepted, Machine, Stand, StepFault, events_are_of_the_interface,
    numbers_that_are_followed_lead, start, what_a_stand_shows_belongs_to_the_program,
    what_is_seen_is_a_trace_of_the_program,
};
use occ_syntax::{Event, Events, Memory, State};
use std::alloc::Global;

/// What is shown where a schedule leads: the state in which the program began, the events that were seen, and how it stands.
#[derive(Drop)]
pub struct Shown {
    pub state: State,
    pub trace: Events,
    pub stand: Stand,
}

/// Where a schedule leads.
#[derive(Drop)]
pub enum Followed {
    /// All its steps were taken.
    Stood(Shown),
    /// This step, counted from 1, is the first that isn't there.
    NoStep { step: u64 },
}

/// Follows a schedule through an accepted program, from its state, step by step. The only error is out of memory.
pub fn follow(alloc: Global, accepted: &Accepted, schedule: Schedule) -> Result<Followed, Memory>
    requires { is_state accepted.now.program.params schedule.state ≡ true }
    ensures followed { IfOk result (IsFollowed accepted.now.program schedule) }
    ensures named { IfOk result (λ followed. (names : List (List ℕ)) → ParametersAreNamed names accepted.now.program → FollowedIsNamed names followed) }
{
    accepted.program();
    let mut machine = start(alloc, accepted, &schedule.state)?;
    match first_missing(&mut machine, schedule.steps.items())? {
        Some(step) => Ok(Followed::NoStep { step }),
        None => {
            numbers_that_are_followed_lead();
            what_is_seen_is_a_trace_of_the_program();
            what_a_stand_shows_belongs_to_the_program();
            events_are_of_the_interface();
            let trace = copied(alloc, machine.trace())?;
            let stand = machine.stand()?;
            let state = schedule.state;
            Ok(Followed::Stood(Shown {
                state,
                trace,
                stand,
            }))
        }
    }
}

/// Takes the steps of those numbers, up to the first that isn't there, and tells which of them that is, counted from 1.
fn first_missing(machine: &mut Machine, steps: &[u32]) -> Result<Option<u64>, Memory>
    ensures { IfOk result (λ missing. MatchOption missing
        (followed 1 (configuration machine.old) steps.now ≡ Ok (configuration machine.new))
        (λ k. followed 1 (configuration machine.old) steps.now ≡ Err k)) }
{
    let mut rest = steps;
    while let [step, later @ ..] = rest {
        match machine.step(*step) {
            Ok(()) => rest = later,
            Err(StepFault::NoStep) => return Ok(Some((steps.len() - later.len()) as u64)),
            Err(StepFault::Memory) => return Err(Memory),
        }
    }
    Ok(None)
}

fn copied(alloc: Global, events: &[Event]) -> Result<Events, Memory>
    ensures { IfOk result (λ copy. copy ≡ events.now) }
{
    let mut copy = Events::new(alloc);
    let mut rest = events;
    while let [event, later @ ..] = rest {
        copy.push(*event)?;
        rest = later;
    }
    Ok(copy)
}
