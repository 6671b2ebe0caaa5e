//! The part of a step put into a program, and whether the law of the step joins the two parts.

ghost use Rattle.std.specs.Prelude.{◌≡◌, ◌↔◌, IfOk, IsSome, IsTrue, true};
ghost use Rattle.occ_derive_search.specs.Walking.{IsExchange};
ghost use Rattle.occ_derive_moves.specs.occ_meaning.Context.{part_at};
ghost use Rattle.occ_derive_moves.specs.occ_replay_rules.Steps.{Joins};
ghost use Rattle.occ_derive_moves.specs.occ_script_lines.Places.{scope_list};
ghost use Rattle.occ_syntax.specs.Scopes.{environment};
ghost use Rattle.occ_syntax.specs.Types.{scope_kept};
ghost use Rattle.occ_syntax.specs.Usage.{Keeps};
ghost use Rattle.occ_syntax.specs.View.{tree};
ghost use Rattle.occ_engine.specs.occ_usage.Accepted.{KeepsRules};

use occ_derive_moves::{Direction, replace};
use occ_engine::{Done, Store, holds, keeps_exchanged};
use occ_syntax::{Memory, Proc, Program, Scope};
use std::alloc::Global;

/// A program with a part put in, and the part that stood there.
#[derive(Drop)]
pub(crate) struct Exchange {
    pub(crate) whole: Program,
    pub(crate) old: Proc,
}

/// The program with the part of a step put in, in the scope there. None where the whole would break a rule.
pub(crate) fn exchanged(
    alloc: Global,
    program: Program,
    scope: &Scope,
    step: &Done,
) -> Result<Option<Exchange>, Memory>
    requires rules { KeepsRules program }
    requires there { IsSome (part_at step.now.path (tree program.body)) }
    requires scope { scope.now ≡ scope_list step.now.path program.params (tree program.body) }
    ensures { IfOk result (IsExchange program step.now) }
{
    let part = step.part.copy(alloc)?;
    let (whole, old) = replace(alloc, program, &step.path, part)?;
    if keeps_exchanged(alloc, scope, &old, &step.part, &whole)? {
        Ok(Some(Exchange { whole, old }))
    } else {
        Ok(None)
    }
}

/// Whether the law of a step joins an old part with the one of the step, in its direction.
pub(crate) fn joins(
    alloc: Global,
    store: &mut Store,
    scope: &Scope,
    old: &Proc,
    step: &Done,
) -> Result<bool, Memory>
    requires scope { scope_kept scope.now ≡ true }
    requires old { Keeps (environment scope.now) (tree old.now) }
    requires new { Keeps (environment scope.now) (tree step.now.part) }
    ensures { IfOk result (λ answer. IsTrue answer ↔ Joins step.now.dir step.now.law.0 scope.now (tree old.now) (tree step.now.part)) }
{
    match step.dir {
        Direction::Forward => holds(alloc, store, step.law, scope, old, &step.part),
        Direction::Backward => holds(alloc, store, step.law, scope, &step.part, old),
    }
}
