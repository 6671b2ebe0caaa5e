//! Where a schedule leads.

ghost use Rattle.std.specs.Prelude.{◌≡◌, IfOk, Ok, Err, MatchOption, true};
ghost use Rattle.occ_run.specs.Configurations.{followed};
ghost use Rattle.occ_run.specs.Machines.{configuration};
ghost use Rattle.occ_run.specs.occ_behaviour.States.{is_state};
ghost use Rattle.occ_stepped.specs.Shown.{HasParams, IsLed, IsStart};

use occ_run::{Machine, StepFault, numbers_that_are_followed_lead, start};
use occ_run_schedule::{Accepted, Schedule};
use occ_syntax::{Kind, List, Memory, Name, State};
use std::alloc::Global;

/// Where a schedule leads.
#[derive(Drop)]
pub enum Led<'a> {
    /// To this machine, by all of its steps.
    There(Machine<'a>),
    /// This step, counted from 1, is the first that isn't there.
    Missing(u64),
}

/// Takes the steps of a schedule, from its state.
pub fn lead<'a>(
    alloc: Global,
    accepted: &'a Accepted,
    schedule: &Schedule,
) -> Result<Led<'a>, Memory>
    requires { is_state accepted.now.program.params schedule.now.state ≡ true }
    ensures led { IfOk result (IsLed accepted.now.program schedule.now) }
    ensures params { IfOk result (HasParams accepted.now.program.params) }
{
    numbers_that_are_followed_lead();
    let mut machine = start(alloc, accepted, &schedule.state)?;
    match first_missing(&mut machine, schedule.steps.items())? {
        Some(step) => Ok(Led::Missing(step)),
        None => Ok(Led::There(machine)),
    }
}

/// Takes the steps of those numbers, up to the first that isn't there, and tells which of them that is, counted from 1.
fn first_missing(machine: &mut Machine, steps: &[u32]) -> Result<Option<u64>, Memory>
    ensures { IfOk result (λ missing. MatchOption missing
        (followed 1 (configuration machine.old) steps.now ≡ Ok (configuration machine.new))
        (λ k. followed 1 (configuration machine.old) steps.now ≡ Err k)) }
{
    let mut rest = steps;
    while let [step, later @ ..] = rest {
        match machine.step(*step) {
            Ok(()) => rest = later,
            Err(StepFault::NoStep) => return Ok(Some((steps.len() - later.len()) as u64)),
            Err(StepFault::Memory) => return Err(Memory),
        }
    }
    Ok(None)
}

/// The schedule without a step, in which each variable of the interface begins with 0.
pub fn beginning(alloc: Global, params: &[(Name, Kind)]) -> Result<Schedule, Memory>
    ensures state { IfOk result (λ schedule. is_state params.now schedule.state ≡ true) }
    ensures start { IfOk result IsStart }
{
    let mut state = State::new(alloc);
    let mut rest = params;
    while let [(name, kind), later @ ..] = rest {
        if let Kind::Var(_) = kind {
            state.push((*name, 0))?;
        }
        rest = later;
    }
    let steps = List::new(alloc);
    Ok(Schedule { state, steps })
}
