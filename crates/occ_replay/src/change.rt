//! A part put into a program, and whether a law joins the old part and the new one.

ghost use Rattle.std.specs.Prelude.{◌≡◌, ◌↔◌, IfErr, IfOk, IsTrue, IsSome, true};
ghost use Rattle.occ_law_any.specs.occ_meaning.Context.{part_at};
ghost use Rattle.occ_script.specs.occ_parse_part.Shown.{part_of};
ghost use Rattle.occ_replay.specs.Changes.{IsChange, IsRefused, IsResolved, IsUnresolved};
ghost use Rattle.occ_replay.specs.Scripts.{step_of};
ghost use Rattle.occ_replay_rules.specs.Steps.{Joins};
ghost use Rattle.occ_script.specs.occ_script_lines.Places.{scope_list};
ghost use Rattle.occ_syntax.specs.Scopes.{environment};
ghost use Rattle.occ_syntax.specs.Types.{scope_kept};
ghost use Rattle.occ_syntax.specs.Usage.{Keeps};
ghost use Rattle.occ_syntax.specs.View.{tree};
ghost use Rattle.occ_law_any.specs.occ_usage.Accepted.{KeepsRules};
ghost use Rattle.occ_replay.specs.declared.change.Stopped.TheVariants as stopped;

use occ_law_any::keeps_exchanged;
use occ_script::{Direction, LawId, ParseFault, Raw, Step, Store, at, replace, resolve};
use occ_syntax::{Memory, Proc, Program, Scope};
use std::alloc::Global;

/// Why a step isn't taken.
#[derive(Clone, Copy, Debug, PartialEq, Eq)]
pub(crate) enum Stopped {
    NoLaw,
    NoPath,
    NotAccepted,
    NotInstance,
    Memory,
}

impl From<Memory> for Stopped {
    ghost from_gives = { λ _ e. e ≡ stopped.Memory };

    fn from(_cause: Memory) -> Stopped {
        Stopped::Memory
    }
}

/// A program with a part put in, the part that stood there, and the scope there.
#[derive(Drop)]
pub(crate) struct Change {
    pub(crate) scope: Scope,
    pub(crate) whole: Program,
    pub(crate) old: Proc,
}

/// The part of a step as a process of the scope at its path.
fn resolved(alloc: Global, scope: &Scope, raw: &Raw) -> Result<Proc, Stopped>
    ensures found { IfOk result (λ part. IsResolved scope.now (part_of raw.now) (tree part)) }
    ensures refused { IfErr result (IsUnresolved scope.now (part_of raw.now)) }
{
    match resolve(alloc, scope, raw) {
        Ok(part) => Ok(part),
        Err(ParseFault::Memory) => Err(Stopped::Memory),
        Err(_) => Err(Stopped::NotAccepted),
    }
}

/// The program with the part of a step put in, where it may be put in.
pub(crate) fn changed(
    alloc: Global,
    program: Program,
    scope: Scope,
    step: &Step,
) -> Result<Change, Stopped>
    requires rules { KeepsRules program }
    requires there { IsSome (part_at step.now.path (tree program.body)) }
    requires scope { scope ≡ scope_list step.now.path program.params (tree program.body) }
    ensures found { IfOk result (IsChange program (step_of step.now)) }
    ensures refused { IfErr result (IsRefused program (step_of step.now)) }
{
    let part = resolved(alloc, &scope, &step.part)?;
    let (whole, old) = replace(alloc, program, &step.path, part)?;
    let Some(new) = at(&whole, &step.path) else {
        unreachable!();
    };
    if keeps_exchanged(alloc, &scope, &old, new, &whole)? {
        Ok(Change { scope, whole, old })
    } else {
        Err(Stopped::NotAccepted)
    }
}

/// Whether a law joins the old part of a change and the new one, in that direction.
pub(crate) fn joins(
    alloc: Global,
    store: &mut Store,
    used: (LawId, Direction),
    change: &Change,
    new: &Proc,
) -> Result<bool, Memory>
    requires scope { scope_kept change.now.scope ≡ true }
    requires old { Keeps (environment change.now.scope) (tree change.now.old) }
    requires new { Keeps (environment change.now.scope) (tree new.now) }
    ensures { IfOk result (λ answer. IsTrue answer
        ↔ Joins used.1 used.0.0 change.now.scope (tree change.now.old) (tree new.now)) }
{
    let (law, dir) = used;
    match dir {
        Direction::Forward => occ_law_any::holds(
            alloc,
            store,
            law,
            &change.scope,
            &change.old,
            new,
        ),
        Direction::Backward => occ_law_any::holds(
            alloc,
            store,
            law,
            &change.scope,
            new,
            &change.old,
        ),
    }
}
