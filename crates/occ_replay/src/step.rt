//! One step of a replay.

ghost use Rattle.std.specs.Prelude.{IfErr, IfOk};
ghost use Rattle.occ_replay.specs.Changes.{IsStopped, IsTaken};
ghost use Rattle.occ_replay.specs.Scripts.{step_of};
ghost use Rattle.occ_law_any.specs.occ_usage.Accepted.{KeepsRules};

use crate::change::{Stopped, changed, joins};
use occ_script::{Step, Store, at, scope_at};
use occ_syntax::Program;
use std::alloc::Global;

/// The program to which a step leads.
pub(crate) fn take_step(
    alloc: Global,
    store: &mut Store,
    program: Program,
    step: &Step,
) -> Result<Program, Stopped>
    requires { KeepsRules program }
    ensures taken { IfOk result (IsTaken program (step_of step.now)) }
    ensures stopped { IfErr result (IsStopped program (step_of step.now)) }
{
    let Some(law) = step.law else {
        return Err(Stopped::NoLaw);
    };
    let Some(_old) = at(&program, &step.path) else {
        return Err(Stopped::NoPath);
    };
    let scope = scope_at(alloc, &program, &step.path)?;
    let change = match changed(alloc, program, scope, step) {
        Ok(change) => change,
        Err(stopped) => return Err(stopped),
    };
    let Some(new) = at(&change.whole, &step.path) else {
        unreachable!()
    };
    if joins(alloc, store, (law, step.dir), &change, new)? {
        Ok(change.whole)
    } else {
        Err(Stopped::NotInstance)
    }
}
