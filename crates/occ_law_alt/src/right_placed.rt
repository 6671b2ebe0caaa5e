ghost use Rattle.std.specs.Prelude.{◌≡◌, IfOk, true};
ghost use Rattle.occ_syntax.specs.Scopes.{environment};
ghost use Rattle.occ_syntax.specs.Tree.{alt, and_branch, and_case, no_case, select, truth};
ghost use Rattle.occ_syntax.specs.Types.{scope_kept, types_kept};
ghost use Rattle.occ_syntax.specs.View.{branches, exp, tree, waiting};
ghost use Rattle.occ_law_shape.specs.occ_law.Instances.{IsOnly, sizes};
ghost use Rattle.occ_law_shape.specs.occ_law.Choice.{AltCase, AltFalse, AltFlat, AltSlide, AltSplit, and_skip};
ghost use Rattle.occ_law_shape.specs.occ_law.Lists.{all_branches};
ghost use Rattle.occ_law_alt.specs.Fronts.{in_front};

use crate::made::{alt_of_copies, around, copied, joined, linked, skip_branch};
use crate::parted::{chosen_at, divided, parted_at};
use crate::{alt_first, are_events, behind, has_skip, is_plain_event};
use occ_law_shape::{LawPlace as Place, Store, if_of, is_never};
use occ_syntax::{Choices, Expr, Guard, Memory, Proc, Scope, same_guard};
use std::alloc::Global;

/// ALT(gs, B, hs) = ALT(gs, hs), where the condition of B is FALSE in every state. The error is out of memory.
pub(crate) fn alt_false(
    alloc: Global,
    store: &mut Store,
    scope: &Scope,
    left: &Proc,
    place: Place,
) -> Result<Option<Proc>, Memory>
    requires scope { scope_kept scope.now ≡ true }
    requires left { types_kept (tree left.now) (environment scope.now) ≡ true }
    ensures { IfOk result (IsOnly (AltFalse scope.now (sizes place)) (tree left.now)) }
{
    let Some(found) = chosen_at(left, place) else {
        return Ok(None);
    };
    let never = is_never(alloc, store, scope, &found.branch.0.condition)?;
    if !never {
        return Ok(None);
    }
    Ok(Some(joined(alloc, found.front, found.rest)?))
}

/// ALT(gs, B, hs) = IF(b ALT(gs, B', hs), TRUE ALT(gs, hs)), where b is the condition of B, and B' is B with the
/// condition TRUE. The error is out of memory.
pub(crate) fn alt_case(alloc: Global, left: &Proc, place: Place) -> Result<Option<Proc>, Memory>
    ensures { IfOk result (IsOnly (AltCase (sizes place)) (tree left.now)) }
{
    let Some(found) = chosen_at(left, place) else {
        return Ok(None);
    };
    Ok(Some(case_of(alloc, found.front, found.branch, found.rest)?))
}

/// The IF of alt-case. The error is out of memory.
fn case_of(
    alloc: Global,
    front: &[(Guard, Proc)],
    branch: &(Guard, Proc),
    rest: &[(Guard, Proc)],
) -> Result<Proc, Memory>
    ensures { IfOk result (λ part. tree part ≡ select (and_case (exp branch.now.0.condition)
        (alt (all_branches (branches front.now)
        (and_branch (truth true) (waiting branch.now.0.wait) (tree branch.now.1) (branches rest.now))))
        (and_case (truth true) (alt (all_branches (branches front.now) (branches rest.now))) no_case))) }
{
    let guard = Guard {
        condition: Expr::Bool(true),
        wait: branch.0.wait.copy(alloc)?,
    };
    let with = around(alloc, front, (guard, branch.1.copy(alloc)?), rest)?;
    let without = joined(alloc, front, rest)?;
    let mut choices = Choices::new(alloc);
    choices.push((branch.0.condition.copy(alloc)?, with))?;
    choices.push((Expr::Bool(true), without))?;
    Ok(if_of(choices))
}

/// ALT(gs, TRUE & SKIP ALT(hs), ks) = ALT(gs, hs, ks), where hs has a branch with the guard TRUE & SKIP. The error is
/// out of memory.
pub(crate) fn alt_flat(alloc: Global, left: &Proc, place: Place) -> Result<Option<Proc>, Memory>
    ensures { IfOk result (IsOnly (AltFlat (sizes place)) (tree left.now)) }
{
    let Some(found) = parted_at(left, place) else {
        return Ok(None);
    };
    let Some((inner, rest)) = alt_first(found.rest) else {
        return Ok(None);
    };
    if !has_skip(inner) {
        return Ok(None);
    }
    Ok(Some(linked(alloc, found.front, inner, rest)?))
}

/// ALT(gs, TRUE & g P, TRUE & SKIP ALT(TRUE & g Q, hs), ks) = ALT(gs, TRUE & SKIP ALT(TRUE & g P, TRUE & g Q, hs), ks). The
/// error is out of memory.
pub(crate) fn alt_split(alloc: Global, left: &Proc, place: Place) -> Result<Option<Proc>, Memory>
    ensures { IfOk result (IsOnly (AltSplit (sizes place)) (tree left.now)) }
{
    let Some(found) = chosen_at(left, place) else {
        return Ok(None);
    };
    let Some((inner, rest)) = alt_first(found.rest) else {
        return Ok(None);
    };
    let Some((next, _)) = divided(inner) else {
        return Ok(None);
    };
    if !is_plain_event(&found.branch.0) {
        return Ok(None);
    }
    if !same_guard(&next.0, &found.branch.0) {
        return Ok(None);
    }
    Ok(Some(split_of(alloc, found.front, found.branch, inner, rest)?))
}

/// The ALT of copies of branches, with TRUE & SKIP between them, and under it the ALT of a copy of a branch and of copies of
/// others. The error is out of memory.
fn split_of(
    alloc: Global,
    front: &[(Guard, Proc)],
    branch: &(Guard, Proc),
    inner: &[(Guard, Proc)],
    rest: &[(Guard, Proc)],
) -> Result<Proc, Memory>
    ensures { IfOk result (λ part. tree part
        ≡ alt (all_branches (branches front.now) (and_skip (alt (in_front branch.now (branches inner.now))) (branches rest.now)))) }
{
    let whole = around(alloc, &[], copied(alloc, branch)?, inner)?;
    around(alloc, front, skip_branch(whole), rest)
}

/// ALT(gs, TRUE & SKIP ALT(gs, hs)) = ALT(gs, hs), where gs has event guards alone. The error is out of memory.
pub(crate) fn alt_slide(alloc: Global, left: &Proc, place: Place) -> Result<Option<Proc>, Memory>
    ensures { IfOk result (IsOnly (AltSlide (sizes place)) (tree left.now)) }
{
    let Some(found) = parted_at(left, place) else {
        return Ok(None);
    };
    let Some((inner, rest)) = alt_first(found.rest) else {
        return Ok(None);
    };
    if !rest.is_empty() {
        return Ok(None);
    }
    if !are_events(found.front) {
        return Ok(None);
    }
    let Some(_) = behind(found.front, inner) else {
        return Ok(None);
    };
    Ok(Some(alt_of_copies(alloc, inner)?))
}
