ghost use Rattle.std.specs.Prelude.{◌≡◌, IfOk, true};
ghost use Rattle.occ_syntax.specs.Scopes.{environment};
ghost use Rattle.occ_syntax.specs.Types.{scope_kept, types_kept};
ghost use Rattle.occ_syntax.specs.View.{tree};
ghost use Rattle.occ_law_shape.specs.occ_law.Instances.{IsOnly, sizes};
ghost use Rattle.occ_law_shape.specs.occ_law.Choice.{IfNone, IfTrue};

use crate::chosen::chosen;
use occ_law_shape::{LawPlace as Place, Store, choices_of, is_always};
use occ_syntax::{Memory, Proc, Scope};
use std::alloc::Global;

/// IF() = STOP
pub(crate) fn if_none(left: &Proc, place: Place) -> Option<Proc>
    ensures { IsOnly (IfNone (sizes place)) (tree left.now) result }
{
    if !place.is_whole() {
        return None;
    }
    let choices = choices_of(left)?;
    if !choices.is_empty() {
        return None;
    }
    Some(Proc::Stop)
}

/// IF(b P, ds) = P, where b is TRUE in every state
pub(crate) fn if_true(
    alloc: Global,
    store: &mut Store,
    scope: &Scope,
    left: &Proc,
    place: Place,
) -> Result<Option<Proc>, Memory>
    requires scope { scope_kept scope.now ≡ true }
    requires left { types_kept (tree left.now) (environment scope.now) ≡ true }
    ensures { IfOk result (IsOnly (IfTrue scope.now (sizes place)) (tree left.now)) }
{
    if !place.is_whole() {
        return Ok(None);
    }
    let Some(at) = chosen(left, Place::Behind(0)) else {
        return Ok(None);
    };
    let is_taken = is_always(alloc, store, scope, at.first.condition)?;
    if !is_taken {
        return Ok(None);
    }
    Ok(Some(at.first.process.copy(alloc)?))
}
