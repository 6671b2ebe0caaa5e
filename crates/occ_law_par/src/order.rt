ghost use Rattle.std.specs.Prelude.{◌≡◌, ◌↔◌, IfOk, IsTrue};
ghost use Rattle.occ_syntax.specs.View.{tree, trees};
ghost use Rattle.occ_law_shape.specs.occ_meaning.Parallel.{Reordered};
ghost use Rattle.occ_law_shape.specs.occ_law.Parallel.{ParOrder};
ghost use Rattle.occ_law_shape.specs.Answer.{IsAnswer};
ghost use Rattle.occ_law_par.specs.Order.{IsCancelled, IsPlaced, referred};

use occ_law_shape::law_case;
use occ_syntax::{Memory, Proc, same_proc};
use std::alloc::Global;

/// a PAR = the same parts in any order
pub(crate) fn par_order(alloc: Global, left: &Proc, right: &Proc) -> Result<bool, Memory>
    ensures { IfOk result (IsAnswer ParOrder (tree left.now) (tree right.now)) }
{
    law_case!(left, Par(parts); right, Par(others) => are_reordered(alloc, parts, others))
}

/// Whether two lists have the same parts in any order.
fn are_reordered(alloc: Global, parts: &[Proc], others: &[Proc]) -> Result<bool, Memory>
    ensures { IfOk result (λ answer. IsTrue answer ↔ Reordered (trees parts.now) (trees others.now)) }
{
    let mut remaining = references(alloc, others)?;
    let mut rest = parts;
    while let [part, more @ ..] = rest {
        if !cancel(&mut remaining, part) {
            return Ok(false);
        }
        rest = more;
    }
    Ok(remaining.is_empty())
}

/// References to the parts of a list.
fn references(alloc: Global, parts: &[Proc]) -> Result<Vec<&Proc>, Memory>
    ensures { IfOk result (λ found. referred found.items ≡ trees parts.now) }
{
    let mut found = Vec::new(alloc);
    for part in parts {
        found.push(part)?;
    }
    Ok(found)
}

/// Takes a part out of a list, once; false exactly where the list doesn't have it.
fn cancel(remaining: &mut Vec<&Proc>, part: &Proc) -> bool
    ensures { IsCancelled (tree part.now) (referred remaining.old.items) (referred remaining.new.items) result }
{
    match place_of(part, remaining) {
        Some(place) => {
            remaining.remove(place);
            true
        }
        None => false,
    }
}

/// Where a part stands in a list; None exactly where it doesn't.
fn place_of(part: &Proc, remaining: &[&Proc]) -> Option<usize>
    ensures { IsPlaced (tree part.now) remaining.now result }
{
    for (place, other) in remaining.iter().enumerate() {
        if same_proc(part, other) {
            return Some(place);
        }
    }
    None
}
