//! A law applied to a part.

ghost use Rattle.std.specs.Prelude.{◌≡◌, ◌↔◌, IfErr, IfOk, IfSome, IsTrue, true};
ghost use Rattle.occ_engine.specs.Applied.{IsMade, IsNotMade, wanted_tree};
ghost use Rattle.occ_replay_rules.specs.Steps.{Joins};
ghost use Rattle.occ_syntax.specs.Scopes.{environment};
ghost use Rattle.occ_syntax.specs.Types.{scope_kept};
ghost use Rattle.occ_syntax.specs.Usage.{Keeps};
ghost use Rattle.occ_syntax.specs.View.{tree};

use crate::ApplyFault;
use occ_law_any::{direct, holds};
use occ_script_write::{Direction, LawId, Store};
use occ_syntax::{Memory, Proc, Scope};
use std::alloc::Global;

/// Whether a law joins an old part and a new one, in a direction.
pub(crate) fn joins(
    alloc: Global,
    store: &mut Store,
    used: (LawId, Direction),
    scope: &Scope,
    parts: (&Proc, &Proc),
) -> Result<bool, Memory>
    requires scope { scope_kept scope.now ≡ true }
    requires old { Keeps (environment scope.now) (tree parts.0.now) }
    requires new { Keeps (environment scope.now) (tree parts.1.now) }
    ensures { IfOk result (λ answer. IsTrue answer
        ↔ Joins used.1 used.0.0 scope.now (tree parts.entry.0.now) (tree parts.entry.1.now)) }
{
    let (law, dir) = used;
    let (old, new) = parts;
    match dir {
        Direction::Forward => holds(alloc, store, law, scope, old, new),
        Direction::Backward => holds(alloc, store, law, scope, new, old),
    }
}

/// What a law makes of a part: the wanted part, where the law joins the two in the direction; and where none is wanted, its direct
/// result, which is there forward alone. NotApplicable comes exactly where there is none. Both parts keep names, types, directions
/// and usage in the scope.
pub fn apply(
    alloc: Global,
    store: &mut Store,
    law: LawId,
    dir: Direction,
    wanted: Option<&Proc>,
    scope: &Scope,
    part: &Proc,
) -> Result<Proc, ApplyFault>
    requires scope { scope_kept scope.now ≡ true }
    requires part { Keeps (environment scope.now) (tree part.now) }
    requires wanted { IfSome (wanted_tree wanted) (Keeps (environment scope.now)) }
    ensures found { IfOk result (IsMade dir law.0 scope.now (wanted_tree wanted.entry) (tree part.now)) }
    ensures refused { IfErr result (IsNotMade dir law.0 scope.now (wanted_tree wanted.entry) (tree part.now)) }
{
    if let Some(wanted) = wanted {
        if joins(alloc, store, (law, dir), scope, (part, wanted))? {
            Ok(wanted.copy(alloc)?)
        } else {
            Err(ApplyFault::NotApplicable)
        }
    } else {
        match dir {
            Direction::Forward => match direct(alloc, store, law, scope, part)? {
                Some(found) => Ok(found),
                None => Err(ApplyFault::NotApplicable),
            },
            Direction::Backward => Err(ApplyFault::NotApplicable),
        }
    }
}
