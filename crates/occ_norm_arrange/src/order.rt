ghost use Rattle.std.specs.Prelude.{◌<◌, ◌+◌, ◌≡◌, IfOk, IfSome, OnOk, length};
ghost use Rattle.occ_meaning.specs.Parallel.{Reordered, all_of, one};
ghost use Rattle.occ_syntax.specs.View.{in_procs, tree, trees};
ghost use Rattle.occ_norm_arrange.specs.FlatArranged.{AddsAll, AreArranged, IsReshaped};

use crate::apart::write_apart;
use crate::flat::last_flattened;
use crate::links::{close_order, cost_of, links_of};
use occ_syntax::{Memory, Proc, Procs, Scope};
use std::alloc::Global;

// More parts than these stay in the order in which they are written.
const MOST_PARTS: usize = 512;

// Adds a copy of a part, or of the parts of a PAR one by one.
#[cycle(add_part)]
fn add_part(alloc: Global, part: &Proc, list: &mut Vec<Proc>) -> Result<(), Memory>
    ensures { OnOk result (AddsAll (trees list.old.items) (one (tree part.now)) (trees list.new.items)) }
{
    match part {
        Proc::Par(parts) => add_parts(alloc, parts.items(), list),
        _ => {
            list.push(part.copy(alloc)?)?;
            Ok(())
        }
    }
}

// The same for each of some parts.
#[cycle(add_part)]
fn add_parts(alloc: Global, parts: &[Proc], list: &mut Vec<Proc>) -> Result<(), Memory>
    ensures { OnOk result (AddsAll (trees list.old.items) (trees parts.now) (trees list.new.items)) }
{
    for part in parts {
        add_part(alloc, part, list)?;
    }
    Ok(())
}

// How many parts are left.
fn count(rest: &Vec<Proc>) -> usize
    ensures { result ≡ length rest.now.items }
{
    rest.len()
}

// Puts the part in a place behind those that are sorted, if there is one.
fn take(rest: &mut Vec<Proc>, sorted: &mut Procs, at: usize) -> Result<(), Memory>
    ensures fewer { OnOk result (at < length rest.old.items → length rest.new.items + 1 ≡ length rest.old.items) }
    ensures order { OnOk result (Reordered (all_of (trees (in_procs sorted.old)) (trees rest.old.items))
        (all_of (trees (in_procs sorted.new)) (trees rest.new.items))) }
{
    if rest.len() <= at {
        return Ok(());
    }
    let part = rest.remove(at);
    sorted.push(part)?;
    Ok(())
}

// The parts in another order: which of those that are left comes next, again and again, and then the others.
fn in_order(alloc: Global, parts: Vec<Proc>, takes: &[usize]) -> Result<Procs, Memory>
    ensures { IfOk result (λ r. Reordered (trees parts.items) (trees (in_procs r))) }
{
    let mut rest = parts;
    let mut sorted = Procs::new(alloc);
    for at in takes {
        take(&mut rest, &mut sorted, *at)?;
    }
    while count(&rest) > 0 {
        take(&mut rest, &mut sorted, 0)?;
    }
    Ok(sorted)
}

// An order in which fewer parts share no channel with those behind them than now, or as many and parts that share channels stand
// closer together, if there is one: which of those that are left comes next, again and again.
fn closer_order(alloc: Global, parts: &[Proc]) -> Result<Option<Vec<usize>>, Memory> {
    if MOST_PARTS < parts.len() {
        return Ok(None);
    }
    let links = links_of(alloc, parts)?;
    let order = close_order(alloc, parts.len(), &links)?;
    if order.cost.is_less(cost_of(parts.len(), &links)) {
        return Ok(Some(order.takes));
    }
    Ok(None)
}

// Whether one of the parts is a PAR.
fn has_par(parts: &[Proc]) -> bool {
    parts.iter().any(|part| matches!(part, Proc::Par(_)))
}

// Whether the parts of a PAR aren't to stay as they are.
fn is_to_change(alloc: Global, parts: &[Proc]) -> Result<bool, Memory> {
    if has_par(parts) {
        return Ok(true);
    }
    let order = closer_order(alloc, parts)?;
    Ok(order.is_some())
}

// The order in which parts are to stand.
fn wanted_order(alloc: Global, parts: &[Proc]) -> Result<Vec<usize>, Memory> {
    match closer_order(alloc, parts)? {
        Some(takes) => Ok(takes),
        None => Ok(Vec::new(alloc)),
    }
}

// The parts of a PAR as they are put side by side, if not as they are written.
fn rearranged(alloc: Global, parts: &[Proc]) -> Result<Option<Procs>, Memory>
    ensures { IfOk result (λ found. IfSome found (λ r. AreArranged (trees parts.now) (trees (in_procs r)))) }
{
    if !is_to_change(alloc, parts)? {
        return Ok(None);
    }
    let mut list = Vec::new(alloc);
    add_parts(alloc, parts, &mut list)?;
    let apart = write_apart(alloc, list.as_slice())?;
    if !apart {
        return Ok(None);
    }
    let takes = wanted_order(alloc, list.as_slice())?;
    let sorted = in_order(alloc, list, takes.as_slice())?;
    Ok(Some(sorted))
}

// The process with the parts of its PAR arranged, perhaps within declarations. None where it is no such PAR, or the parts stand
// so already.
fn arranged(alloc: Global, part: &Proc) -> Result<Option<Proc>, Memory>
    ensures { IfOk result (λ found. IfSome found (λ other. IsReshaped (tree part.now) (tree other))) }
{
    let mut declarations = Scope::new(alloc);
    let mut body = part;
    while let Some((name, kind, inside)) = body.declared() {
        declarations.push((name, kind))?;
        body = inside;
    }
    let Proc::Par(parts) = body else {
        return Ok(None);
    };
    let Some(sorted) = rearranged(alloc, parts.items())? else {
        return Ok(None);
    };
    let whole = Proc::Par(sorted).within(alloc, declarations.items())?;
    Ok(Some(whole))
}

/// The process with one PAR in the place of a PAR, other PARs among its parts, those among theirs, and so on. One in a last
/// part may stand within declarations of channels, which then stand round the one PAR. The parts stand in an order in which
/// those that share channels are close together, if they write different variables. None where the process within its own
/// declarations is no PAR, or its parts stand so already.
pub fn body_arranged(alloc: Global, part: &Proc) -> Result<Option<Proc>, Memory>
    ensures { IfOk result (λ found. IfSome found (λ other. IsReshaped (tree part.now) (tree other))) }
{
    let Some(flat) = last_flattened(alloc, part)? else {
        return arranged(alloc, part);
    };
    let Some(whole) = arranged(alloc, &flat)? else {
        return Ok(Some(flat));
    };
    Ok(Some(whole))
}
