ghost use Rattle.std.specs.Prelude.{◌≡◌, ◌↔◌, IfOk, IsTrue, map};
ghost use Rattle.occ_syntax.specs.View.{tree, branches};
ghost use Rattle.occ_law_shape.specs.occ_law.Choice.{AltOrder};
ghost use Rattle.occ_law_shape.specs.occ_law.Lists.{BranchesReordered};
ghost use Rattle.occ_law_shape.specs.Answer.{IsAnswer};
ghost use Rattle.occ_law_alt.specs.Lacking.{IsCancelled, IsPlaceOf, shown};

use occ_law_shape::law_case;
use occ_syntax::{Guard, Memory, Proc, same_branch};
use std::alloc::Global;

/// An ALT = the same branches in any order
pub(crate) fn alt_order(alloc: Global, left: &Proc, right: &Proc) -> Result<bool, Memory>
    ensures { IfOk result (IsAnswer AltOrder (tree left.now) (tree right.now)) }
{
    law_case!(left, Alt(alternatives); right, Alt(others) => are_reordered(alloc, alternatives, others))
}

/// Whether two lists have the same branches, each as many times. The error is out of memory.
fn are_reordered(
    alloc: Global,
    alternatives: &[(Guard, Proc)],
    others: &[(Guard, Proc)],
) -> Result<bool, Memory>
    ensures { IfOk result (λ answer. IsTrue answer ↔ BranchesReordered (branches alternatives.now) (branches others.now)) }
{
    let mut left_over = references(alloc, others)?;
    let mut rest = alternatives;
    while let [branch, more @ ..] = rest {
        if !cancel(&mut left_over, branch) {
            return Ok(false);
        }
        rest = more;
    }
    Ok(left_over.is_empty())
}

/// References to the branches of a list, in order.
fn references<'a>(
    alloc: Global,
    others: &'a [(Guard, Proc)],
) -> Result<Vec<&'a (Guard, Proc)>, Memory>
    ensures { IfOk result (λ list. map (λ other. other.now) list.items ≡ others.now) }
{
    let mut list = Vec::new(alloc);
    for other in others {
        list.push(other)?;
    }
    Ok(list)
}

/// Takes a branch equal to this one out of a list, and answers whether there was one.
fn cancel(list: &mut Vec<&(Guard, Proc)>, branch: &(Guard, Proc)) -> bool
    ensures { IsCancelled branch.now (shown list.old.items) (shown list.new.items) result }
{
    match place_of(list.as_slice(), branch) {
        Some(place) => {
            list.remove(place);
            true
        }
        None => false,
    }
}

/// The place of a branch in a list; None exactly where it isn't in it.
fn place_of(list: &[&(Guard, Proc)], branch: &(Guard, Proc)) -> Option<usize>
    ensures { IsPlaceOf branch.now list.now result }
{
    for (place, other) in list.iter().enumerate() {
        if same_branch(branch, other) {
            return Some(place);
        }
    }
    None
}
