ghost use Rattle.std.specs.Prelude.{◌≡◌, IfOk};
ghost use Rattle.occ_syntax.specs.Tree.{alt, no_branch};
ghost use Rattle.occ_syntax.specs.View.{branches, tree};
ghost use Rattle.occ_law_shape.specs.occ_law.Instances.{IsOnly, sizes};
ghost use Rattle.occ_law_shape.specs.occ_law.Choice.{AltLeast, AltNone, AltSkip, and_skip};
ghost use Rattle.occ_law_shape.specs.occ_law.Lists.{all_branches};

use crate::made::{alt_of_copies, around, skip_branch};
use crate::{alt_pair, are_plain_events, behind, skip_first};
use occ_law_shape::{LawPlace as Place, branches_of};
use occ_syntax::{Guard, Memory, Proc};
use std::alloc::Global;

/// ALT() = STOP
pub(crate) fn alt_none(left: &Proc, place: Place) -> Result<Option<Proc>, Memory>
    ensures { IfOk result (IsOnly (AltNone (sizes place)) (tree left.now)) }
{
    if !place.is_whole() {
        return Ok(None);
    }
    let Some(alternatives) = branches_of(left) else {
        return Ok(None);
    };
    if !alternatives.is_empty() {
        return Ok(None);
    }
    Ok(Some(Proc::Stop))
}

/// ALT(TRUE & SKIP P) = P. The error is out of memory.
pub(crate) fn alt_skip(alloc: Global, left: &Proc, place: Place) -> Result<Option<Proc>, Memory>
    ensures { IfOk result (IsOnly (AltSkip (sizes place)) (tree left.now)) }
{
    if !place.is_whole() {
        return Ok(None);
    }
    let Some(alternatives) = branches_of(left) else {
        return Ok(None);
    };
    let Some((process, rest)) = skip_first(alternatives) else {
        return Ok(None);
    };
    if !rest.is_empty() {
        return Ok(None);
    }
    Ok(Some(process.copy(alloc)?))
}

/// ALT(TRUE & SKIP ALT(gs), TRUE & SKIP ALT(gs, hs)) = ALT(hs, TRUE & SKIP ALT(gs)), event guards with TRUE alone. The
/// error is out of memory.
pub(crate) fn alt_least(alloc: Global, left: &Proc, place: Place) -> Result<Option<Proc>, Memory>
    ensures { IfOk result (IsOnly (AltLeast (sizes place)) (tree left.now)) }
{
    if !place.is_whole() {
        return Ok(None);
    }
    let Some(alternatives) = branches_of(left) else {
        return Ok(None);
    };
    let Some((less, whole)) = alt_pair(alternatives) else {
        return Ok(None);
    };
    let Some(more) = behind(less, whole) else {
        return Ok(None);
    };
    if !are_plain_events(less) {
        return Ok(None);
    }
    if !are_plain_events(more) {
        return Ok(None);
    }
    Ok(Some(least_of(alloc, less, more)?))
}

/// The ALT of copies of branches, with TRUE & SKIP of the ALT of others behind them. The error is out of memory.
fn least_of(alloc: Global, less: &[(Guard, Proc)], more: &[(Guard, Proc)]) -> Result<Proc, Memory>
    ensures { IfOk result (λ part. tree part ≡ alt (all_branches (branches more.now) (and_skip (alt (branches less.now)) no_branch))) }
{
    let inner = alt_of_copies(alloc, less)?;
    around(alloc, more, skip_branch(inner), &[])
}
