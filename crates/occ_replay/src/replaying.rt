//! The replay of a whole script.

ghost use Rattle.std.specs.Prelude.{◌≡◌, ◌↔◌, ◌<◌, length, IfErr, IfOk, IsTrue};
ghost use Rattle.occ_replay.specs.Scripts.{IsDerived, IsEndOf, IsReplayed, IsRejectedSteps, IsSameProgram, rejects, steps_of};
ghost use Rattle.occ_law_any.specs.occ_usage.Accepted.{IsTyped, KeepsRules};

use crate::change::Stopped;
use crate::step::take_step;
use crate::{Joined, Rejected};
use occ_law_any::{Accepted, UsageFault, check};
use occ_script::{Script, Step, Store};
use occ_syntax::{Program, same_proc};
use std::alloc::Global;

/// Why a step isn't taken, with its number.
fn rejected(stopped: Stopped, step: u32) -> Rejected
    ensures { result ≡ rejects stopped step }
{
    match stopped {
        Stopped::NoLaw => Rejected::NoLaw { step },
        Stopped::NoPath => Rejected::NoPath { step },
        Stopped::NotAccepted => Rejected::NotAccepted { step },
        Stopped::NotInstance => Rejected::NotInstance { step },
        Stopped::Memory => Rejected::Memory,
    }
}

/// The program to which steps lead.
fn follow(alloc: Global, from: &Program, steps: &[Step]) -> Result<Program, Rejected>
    requires keeps { KeepsRules from.now }
    requires few { length steps.now < 4294967295 }
    ensures derived { IfOk result (IsDerived from.now (steps_of steps.now)) }
    ensures stopped { IfErr result (IsRejectedSteps from.now (steps_of steps.now)) }
{
    let mut store = Store::new(alloc)?;
    let mut program = from.copy(alloc)?;
    let mut number: u32 = 0;
    for step in steps {
        number += 1;
        match take_step(alloc, &mut store, program, step) {
            Ok(next) => program = next,
            Err(stopped) => return Err(rejected(stopped, number)),
        }
    }
    Ok(program)
}

/// Whether two programs are the same tree, with one name and the same parameters. It takes no memory.
fn same_program(left: &Program, right: &Program) -> bool
    ensures { IsTrue result ↔ IsEndOf left.now right.now }
{
    if !left.has_header_of(right) {
        return false;
    }
    same_proc(&left.body, &right.body)
}

/// Replays a script. It joins its two programs exactly where it is a derivation: the first program is accepted, each step puts
/// in a part that may stand there and that a law joins with the one before, and the steps lead to the last program. These two
/// then mean the same. Otherwise the first cause is the answer. Names, types, directions and limits of the first program are
/// kept, as of each script that was read.
pub fn replay(alloc: Global, script: &Script) -> Result<Joined, Rejected>
    requires typed { IsTyped script.now.from.program }
    requires few { length script.now.steps < 4294967295 }
    ensures { IsReplayed script.now result }
{
    match check(alloc, script.from.program.copy(alloc)?) {
        Ok(accepted) => joined(alloc, &accepted, script),
        Err(UsageFault::Memory) => Err(Rejected::Memory),
        Err(fault) => Err(Rejected::From(fault)),
    }
}

/// The same, where the first program is accepted.
fn joined(alloc: Global, from: &Accepted, script: &Script) -> Result<Joined, Rejected>
    requires first { IsSameProgram script.now.from.program from.now.program }
    requires few { length script.now.steps < 4294967295 }
    ensures { IsReplayed script.now result }
{
    let from = from.program();
    let to = follow(alloc, from, script.steps.items())?;
    if !same_program(&to, &script.to) {
        return Err(Rejected::WrongEnd);
    }
    Ok(Joined {
        from: from.copy(alloc)?,
        to,
        steps: script.steps.items().len() as u32,
    })
}
