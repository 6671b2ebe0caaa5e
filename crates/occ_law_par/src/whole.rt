ghost use Rattle.std.specs.Prelude.{◌≡◌, IfOk, true};
ghost use Rattle.occ_syntax.specs.Scopes.{environment};
ghost use Rattle.occ_syntax.specs.Types.{scope_kept, types_kept};
ghost use Rattle.occ_syntax.specs.View.{tree};
ghost use Rattle.occ_law_shape.specs.occ_law.Instances.{IsOnly, sizes};
ghost use Rattle.occ_law_shape.specs.occ_law.Parallel.{ParAssign, ParIf, ParNone, ParOne, ParStop};

use crate::made::{beside, choices_beside};
use crate::right_parts::{begun, parts_of, two_of};
use occ_law_shape::{
    LawPlace as Place, Store, add_copies, choices_of, if_of, in_turn, is_exhaustive, is_stop, only,
    seq_of,
};
use occ_syntax::{Memory, Proc, Procs, Scope};
use std::alloc::Global;

/// PAR() = SKIP
pub(crate) fn par_none(left: &Proc, place: Place) -> Option<Proc>
    ensures { IsOnly (ParNone (sizes place)) (tree left.now) result }
{
    let parts = parts_of(left, place)?;
    if !parts.is_empty() {
        return None;
    }
    Some(Proc::Skip)
}

/// PAR(P) = P
pub(crate) fn par_one(alloc: Global, left: &Proc, place: Place) -> Result<Option<Proc>, Memory>
    ensures { IfOk result (IsOnly (ParOne (sizes place)) (tree left.now)) }
{
    let Some(parts) = parts_of(left, place) else {
        return Ok(None);
    };
    let Some(part) = only(parts) else {
        return Ok(None);
    };
    Ok(Some(part.copy(alloc)?))
}

/// PAR(P, STOP) = SEQ(P, STOP)
pub(crate) fn par_stop(alloc: Global, left: &Proc, place: Place) -> Result<Option<Proc>, Memory>
    ensures { IfOk result (IsOnly (ParStop (sizes place)) (tree left.now)) }
{
    let Some((first, second)) = two_of(left, place) else {
        return Ok(None);
    };
    if !is_stop(second) {
        return Ok(None);
    }
    let one = first.copy(alloc)?;
    let other = second.copy(alloc)?;
    Ok(Some(in_turn(alloc, one, other)?))
}

/// PAR(SEQ(xs := es, Ps), Q) = SEQ(xs := es, PAR(SEQ(Ps), Q))
pub(crate) fn par_assign(alloc: Global, left: &Proc, place: Place) -> Result<Option<Proc>, Memory>
    ensures { IfOk result (IsOnly (ParAssign (sizes place)) (tree left.now)) }
{
    let Some((first, second)) = two_of(left, place) else {
        return Ok(None);
    };
    let Some(start) = begun(first) else {
        return Ok(None);
    };
    let mut rest = Procs::new(alloc);
    add_copies(alloc, &mut rest, start.rest)?;
    let other = second.copy(alloc)?;
    let later = beside(alloc, seq_of(rest), other)?;
    let assignment = start.assignment.copy(alloc)?;
    Ok(Some(in_turn(alloc, assignment, later)?))
}

/// PAR(IF(b1 P1, .., bn Pn), Q) = IF(b1 PAR(P1, Q), .., bn PAR(Pn, Q)), where in every state some condition is TRUE
pub(crate) fn par_if(
    alloc: Global,
    store: &mut Store,
    scope: &Scope,
    left: &Proc,
    place: Place,
) -> Result<Option<Proc>, Memory>
    requires scope { scope_kept scope.now ≡ true }
    requires left { types_kept (tree left.now) (environment scope.now) ≡ true }
    ensures { IfOk result (IsOnly (ParIf scope.now (sizes place)) (tree left.now)) }
{
    let Some((first, second)) = two_of(left, place) else {
        return Ok(None);
    };
    let Some(choices) = choices_of(first) else {
        return Ok(None);
    };
    let is_enough = is_exhaustive(alloc, store, scope, choices)?;
    if !is_enough {
        return Ok(None);
    }
    let made = choices_beside(alloc, choices, second)?;
    Ok(Some(if_of(made)))
}
