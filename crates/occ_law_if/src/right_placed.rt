ghost use Rattle.std.specs.Prelude.{◌≡◌, ◌↔◌, IfOk, IsTrue, true};
ghost use Rattle.occ_syntax.specs.Scopes.{environment};
ghost use Rattle.occ_syntax.specs.Tree.{and_case, no_case, stop, truth};
ghost use Rattle.occ_syntax.specs.Types.{scope_kept, types_kept};
ghost use Rattle.occ_syntax.specs.View.{tree};
ghost use Rattle.occ_law_shape.specs.occ_law.Instances.{IsOnly, sizes};
ghost use Rattle.occ_law_shape.specs.occ_law.Choice.{IfCut, IfElseStop, IfFalse, IfMerge, IfNest, IfSwap};
ghost use Rattle.occ_law_if.specs.Chosen.{in_front};

use crate::choices::{Front, divided};
use crate::chosen::{chosen, parted};
use crate::made::{add, add_copy, add_under, copied, finished};
use occ_law_shape::{
    LawPlace as Place, Store, choices_of, exclude_each_other, if_of, is_exhaustive, is_never,
    is_stop, is_truth, operated,
};
use occ_syntax::{Memory, Op, Proc, Scope, same_proc};
use std::alloc::Global;

/// IF(cs, b P, ds) = IF(cs, ds), where b is FALSE in every state
pub(crate) fn if_false(
    alloc: Global,
    store: &mut Store,
    scope: &Scope,
    left: &Proc,
    place: Place,
) -> Result<Option<Proc>, Memory>
    requires scope { scope_kept scope.now ≡ true }
    requires left { types_kept (tree left.now) (environment scope.now) ≡ true }
    ensures { IfOk result (IsOnly (IfFalse scope.now (sizes place)) (tree left.now)) }
{
    let Some(at) = chosen(left, place) else {
        return Ok(None);
    };
    let is_left_out = is_never(alloc, store, scope, at.first.condition)?;
    if !is_left_out {
        return Ok(None);
    }
    let made = copied(alloc, at.before)?;
    Ok(Some(finished(alloc, made, at.first.behind)?))
}

/// IF(cs, TRUE STOP) = IF(cs)
pub(crate) fn if_else_stop(alloc: Global, left: &Proc, place: Place) -> Result<Option<Proc>, Memory>
    ensures { IfOk result (IsOnly (IfElseStop (sizes place)) (tree left.now)) }
{
    let Some(at) = chosen(left, place) else {
        return Ok(None);
    };
    if !is_else_stop(&at.first) {
        return Ok(None);
    }
    let made = copied(alloc, at.before)?;
    Ok(Some(if_of(made)))
}

/// Whether a choice is TRUE STOP, and the last one.
fn is_else_stop(first: &Front<'_>) -> bool
    ensures { IsTrue result ↔ (in_front first.now ≡ and_case (truth true) stop no_case) }
{
    if !first.behind.is_empty() {
        return false;
    }
    if !is_truth(first.condition) {
        return false;
    }
    is_stop(first.process)
}

/// IF(cs, ds) = IF(cs), where in every state some condition of cs is TRUE
pub(crate) fn if_cut(
    alloc: Global,
    store: &mut Store,
    scope: &Scope,
    left: &Proc,
    place: Place,
) -> Result<Option<Proc>, Memory>
    requires scope { scope_kept scope.now ≡ true }
    requires left { types_kept (tree left.now) (environment scope.now) ≡ true }
    ensures { IfOk result (IsOnly (IfCut scope.now (sizes place)) (tree left.now)) }
{
    let Some(at) = parted(left, place) else {
        return Ok(None);
    };
    let is_enough = is_exhaustive(alloc, store, scope, at.before)?;
    if !is_enough {
        return Ok(None);
    }
    let made = copied(alloc, at.before)?;
    Ok(Some(if_of(made)))
}

/// IF(cs, b IF(b1 P1, .., bn Pn), ds) = IF(cs, b AND b1 P1, .., b AND bn Pn, b STOP, ds)
pub(crate) fn if_nest(alloc: Global, left: &Proc, place: Place) -> Result<Option<Proc>, Memory>
    ensures { IfOk result (IsOnly (IfNest (sizes place)) (tree left.now)) }
{
    let Some(at) = chosen(left, place) else {
        return Ok(None);
    };
    let Some(inner) = choices_of(at.first.process) else {
        return Ok(None);
    };
    let mut made = copied(alloc, at.before)?;
    add_under(alloc, &mut made, at.first.condition, inner)?;
    add(&mut made, at.first.condition.copy(alloc)?, Proc::Stop)?;
    Ok(Some(finished(alloc, made, at.first.behind)?))
}

/// IF(cs, b P, b' Q, ds) = IF(cs, b' Q, b P, ds), where b and b' are TRUE together in no state
pub(crate) fn if_swap(
    alloc: Global,
    store: &mut Store,
    scope: &Scope,
    left: &Proc,
    place: Place,
) -> Result<Option<Proc>, Memory>
    requires scope { scope_kept scope.now ≡ true }
    requires left { types_kept (tree left.now) (environment scope.now) ≡ true }
    ensures { IfOk result (IsOnly (IfSwap scope.now (sizes place)) (tree left.now)) }
{
    let Some(at) = chosen(left, place) else {
        return Ok(None);
    };
    let Some(second) = divided(at.first.behind) else {
        return Ok(None);
    };
    let are_apart = exclude_each_other(alloc, store, scope, at.first.condition, second.condition)?;
    if !are_apart {
        return Ok(None);
    }
    let mut made = copied(alloc, at.before)?;
    add_copy(alloc, &mut made, second.condition, second.process)?;
    add_copy(alloc, &mut made, at.first.condition, at.first.process)?;
    Ok(Some(finished(alloc, made, second.behind)?))
}

/// IF(cs, b P, b' P, ds) = IF(cs, b OR b' P, ds)
pub(crate) fn if_merge(alloc: Global, left: &Proc, place: Place) -> Result<Option<Proc>, Memory>
    ensures { IfOk result (IsOnly (IfMerge (sizes place)) (tree left.now)) }
{
    let Some(at) = chosen(left, place) else {
        return Ok(None);
    };
    let Some(second) = divided(at.first.behind) else {
        return Ok(None);
    };
    if !same_proc(at.first.process, second.process) {
        return Ok(None);
    }
    let mut made = copied(alloc, at.before)?;
    let either = operated(alloc, Op::Or, at.first.condition, second.condition)?;
    add(&mut made, either, at.first.process.copy(alloc)?)?;
    Ok(Some(finished(alloc, made, second.behind)?))
}
