//! The expansion of a PAR of two parts.

ghost use Rattle.std.specs.Prelude.{◌≡◌, IfErr, IfOk};
ghost use Rattle.occ_engine.specs.Granted.{AreCutOff, IsBroughtOut, IsExpansion, IsNotExpanded, IsNotGranted};
ghost use Rattle.occ_engine.specs.Moved.{IsMoved};
ghost use Rattle.occ_engine.specs.Outcomes.{IsOutcome};
ghost use Rattle.occ_engine.specs.Wishes.{wish_of, wishes_of};
ghost use Rattle.occ_syntax.specs.View.{tree};
ghost use Rattle.occ_law_any.specs.occ_usage.Accepted.{KeepsRules};

use crate::fault::Stopped;
use crate::moving::{Moved, Use, direct, given};
use crate::wishes::{Wish, expanding, pair};
use crate::{Dones, EngineFault, Outcome};
use occ_law_any::Accepted;
use occ_script_write::{Path, Store, at, scope_at};
use occ_syntax::Program;
use std::alloc::Global;

/// The program to which a wish leads, and the step that grants it.
fn grant(alloc: Global, store: &mut Store, program: Program, wish: &Wish) -> Result<Moved, Stopped>
    requires { KeepsRules program }
    ensures moved { IfOk result (IsMoved program (wish_of wish.now)) }
    ensures stopped { IfErr result (IsNotGranted program.params (tree program.body) (wish_of wish.now)) }
{
    let Some(_old) = at(&program, &wish.path) else {
        return Err(Stopped::NoPath);
    };
    let scope = scope_at(alloc, &program, &wish.path)?;
    let used = Use {
        law: wish.law,
        dir: wish.dir,
        path: &wish.path,
        scope: &scope,
    };
    match &wish.wanted {
        Some(part) => match part.copy(alloc) {
            Ok(part) => given(alloc, store, program, &used, part),
            Err(cause) => Err(Stopped::from(cause)),
        },
        None => direct(alloc, store, program, &used),
    }
}

/// The steps that grant wishes, and the program to which they lead.
fn grant_all(alloc: Global, from: &Program, wishes: &[Wish]) -> Result<Outcome, Stopped>
    requires { KeepsRules from.now }
    ensures brought { IfOk result (IsBroughtOut from.now (wishes_of wishes.now)) }
    ensures stopped { IfErr result (AreCutOff from.now (wishes_of wishes.now)) }
{
    let mut store = Store::new(alloc)?;
    let mut to = from.copy(alloc)?;
    let mut steps = Dones::new(alloc);
    for wish in wishes {
        match grant(alloc, &mut store, to, wish) {
            Ok(Moved { to: next, done }) => {
                steps.push(done)?;
                to = next;
            }
            Err(stopped) => return Err(stopped),
        }
    }
    Ok(Outcome { steps, to })
}

/// Expands the PAR of two parts at a path: each part is made an ALT first, and then par-expand is used. The steps are moves, so what
/// they lead to means the same as the accepted program. NoPath comes exactly where there is no part, NotPar where there is another
/// one than a PAR of two parts, and NotAccepted where a move leads to what may not be put in.
pub fn expand(alloc: Global, accepted: &Accepted, path: &Path) -> Result<Outcome, EngineFault>
    ensures expanded { IfOk result (IsExpansion accepted.now.program path.now) }
    ensures outcome { IfOk result (IsOutcome accepted.now.program) }
    ensures stopped { IfErr result (IsNotExpanded accepted.now.program path.now) }
{
    let program = accepted.program();
    let Some(part) = at(program, path) else {
        return Err(EngineFault::NoPath { order: 1 });
    };
    let Some((first, second)) = pair(part) else {
        return Err(EngineFault::NotPar);
    };
    let wishes = expanding(alloc, path, first, second)?;
    match grant_all(alloc, program, wishes.items()) {
        Ok(outcome) => Ok(outcome),
        Err(Stopped::NotAccepted) => Err(EngineFault::NotAccepted { order: 1 }),
        Err(Stopped::Memory) => Err(EngineFault::Memory),
        Err(Stopped::NoLaw) => unreachable!(),
        Err(Stopped::NoPath) => unreachable!(),
        Err(Stopped::NotApplicable) => unreachable!(),
    }
}
