ghost use Rattle.std.specs.Prelude.{◌≡◌, IfOk};
ghost use Rattle.occ_syntax.specs.Tree.{alt, no_branch};
ghost use Rattle.occ_syntax.specs.View.{exp, tree, waiting};
ghost use Rattle.occ_law_shape.specs.occ_law.Instances.{IsOnly, sizes};
ghost use Rattle.occ_law_shape.specs.occ_law.Choice.{AltSame, AltTwice, and_skip};

use crate::is_event;
use crate::made::{copied, exchanged, skip_branch};
use crate::parted::around_at;
use occ_law_shape::{LawPlace as Place, alt_of};
use occ_syntax::{Alternatives, Guard, Memory, Proc, same_branch, same_guard};
use std::alloc::Global;

/// ALT(gs, B, hs, B, ks) = ALT(gs, B, hs, ks). The error is out of memory.
pub(crate) fn alt_twice(alloc: Global, left: &Proc, place: Place) -> Result<Option<Proc>, Memory>
    ensures { IfOk result (IsOnly (AltTwice (sizes place)) (tree left.now)) }
{
    let Some(found) = around_at(left, place) else {
        return Ok(None);
    };
    if !same_branch(found.first, found.second) {
        return Ok(None);
    }
    let kept = copied(alloc, found.first)?;
    Ok(Some(exchanged(alloc, found.front, kept, found.middle, found.rest)?))
}

/// ALT(gs, b & g P, hs, b & g Q, ks) = ALT(gs, b & g ALT(TRUE & SKIP P, TRUE & SKIP Q), hs, ks). The error is out of memory.
pub(crate) fn alt_same(alloc: Global, left: &Proc, place: Place) -> Result<Option<Proc>, Memory>
    ensures { IfOk result (IsOnly (AltSame (sizes place)) (tree left.now)) }
{
    let Some(found) = around_at(left, place) else {
        return Ok(None);
    };
    if !is_event(&found.first.0.wait) {
        return Ok(None);
    }
    if !same_guard(&found.first.0, &found.second.0) {
        return Ok(None);
    }
    let choice = choice_of(alloc, &found.first.1, &found.second.1)?;
    let chooser = (found.first.0.copy(alloc)?, choice);
    Ok(Some(exchanged(alloc, found.front, chooser, found.middle, found.rest)?))
}

/// The ALT of TRUE & SKIP with a copy of one process, and TRUE & SKIP with a copy of another. The error is out of memory.
fn choice_of(alloc: Global, first: &Proc, second: &Proc) -> Result<Proc, Memory>
    ensures { IfOk result (λ part. tree part ≡ alt (and_skip (tree first.now) (and_skip (tree second.now) no_branch))) }
{
    let mut made = Alternatives::new(alloc);
    made.push(skip_branch(first.copy(alloc)?))?;
    made.push(skip_branch(second.copy(alloc)?))?;
    Ok(alt_of(made))
}
