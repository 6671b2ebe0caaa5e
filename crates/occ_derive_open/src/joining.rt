ghost use Rattle.std.specs.Prelude.{◌≤◌, IfSome, length};

use crate::constants::{Pairs, held, made_constant, substituted};
use occ_derive_expose::{Frame, Law, Lost, Trail, assign_of};
use occ_syntax::{Expr, Memory, Name};
use std::alloc::Global;

/// Two assignments one after the other become one assignment to all their variables in order, with constants where nothing is named.
/// Here they are their pairs.
pub(crate) fn join_pairs(
    trail: &mut Trail,
    frame: &Frame,
    first: Pairs,
    second: Pairs,
) -> Result<Pairs, Lost> {
    let alloc = trail.alloc();
    let order = united(alloc, frame, first.as_slice(), second.as_slice())?;
    let one = one_of_both(trail, first, second, order.as_slice())?;
    evaluated(trail, one)
}

/// Two assignments become one to these variables, which are those of both.
fn one_of_both(
    trail: &mut Trail,
    first: Pairs,
    second: Pairs,
    order: &[Name],
) -> Result<Pairs, Lost> {
    let alloc = trail.alloc();
    trail.enter(0)?;
    let front = widened(trail, first, order)?;
    trail.leave();
    trail.enter(1)?;
    let back = widened(trail, second, order)?;
    trail.leave();
    let made = behind(alloc, front.as_slice(), back.as_slice())?;
    trail.forward(Law::AssignJoin, &assign_of(alloc, made.as_slice())?)?;
    Ok(made)
}

/// The pairs with right sides behind other pairs.
fn behind(alloc: Global, front: &[(Name, Expr)], pairs: &[(Name, Expr)]) -> Result<Pairs, Memory> {
    let mut made = Vec::new(alloc);
    for (name, value) in pairs {
        let value = substituted(alloc, value, front)?;
        made.push((*name, value))?;
    }
    Ok(made)
}

/// The variables of two assignments, each once, in order.
fn united(
    alloc: Global,
    frame: &Frame,
    first: &[(Name, Expr)],
    second: &[(Name, Expr)],
) -> Result<Vec<Name>, Memory> {
    let mut order = Vec::new(alloc);
    insert_all(frame, &mut order, first)?;
    insert_all(frame, &mut order, second)?;
    Ok(order)
}

fn insert_all(frame: &Frame, order: &mut Vec<Name>, pairs: &[(Name, Expr)]) -> Result<(), Memory> {
    for (name, _) in pairs {
        insert(frame, order, *name)?;
    }
    Ok(())
}

/// Puts a variable in its place in order, unless it is there.
fn insert(frame: &Frame, order: &mut Vec<Name>, name: Name) -> Result<(), Memory> {
    match place_for(frame, order.as_slice(), name) {
        Some(place) => Ok(order.insert(place, name)?),
        None => Ok(()),
    }
}

/// The place where a variable belongs in order; None where it stands there.
fn place_for(frame: &Frame, order: &[Name], name: Name) -> Option<usize>
    ensures within { IfSome result (λ place. place ≤ length order.now) }
{
    for (place, other) in order.iter().enumerate() {
        if *other == name {
            return None;
        }
        if frame.precedes(name, *other) {
            return Some(place);
        }
    }
    Some(order.len())
}

/// An assignment comes to assign all these variables, in their order: those that it lacks to themselves.
fn widened(trail: &mut Trail, pairs: Pairs, order: &[Name]) -> Result<Pairs, Lost> {
    let wide = padded(trail, pairs, order)?;
    if is_in_order(wide.as_slice(), order) {
        return Ok(wide);
    }
    let alloc = trail.alloc();
    let ordered = in_order(alloc, wide.as_slice(), order)?;
    trail.forward(Law::AssignOrder, &assign_of(alloc, ordered.as_slice())?)?;
    Ok(ordered)
}

/// An assignment comes to assign all these variables: those that it lacks to themselves.
fn padded(trail: &mut Trail, pairs: Pairs, order: &[Name]) -> Result<Pairs, Lost> {
    let mut wide = pairs;
    for name in order {
        wide = with_variable(trail, wide, *name)?;
    }
    Ok(wide)
}

fn with_variable(trail: &mut Trail, pairs: Pairs, name: Name) -> Result<Pairs, Lost> {
    match held(pairs.as_slice(), name) {
        Some(_) => Ok(pairs),
        None => {
            let mut wide = pairs;
            wide.push((name, Expr::Var(name)))?;
            trail.forward(Law::AssignPad, &assign_of(trail.alloc(), wide.as_slice())?)?;
            Ok(wide)
        }
    }
}

/// The pairs of these variables, in their order; a variable that has no right side is its own.
fn in_order(alloc: Global, pairs: &[(Name, Expr)], order: &[Name]) -> Result<Pairs, Memory> {
    let mut ordered = Vec::new(alloc);
    for name in order {
        let value = substituted(alloc, &Expr::Var(*name), pairs)?;
        ordered.push((*name, value))?;
    }
    Ok(ordered)
}

/// Whether the pairs are those of these variables, in their order.
fn is_in_order(pairs: &[(Name, Expr)], order: &[Name]) -> bool {
    if pairs.len() != order.len() {
        return false;
    }
    for (place, (name, _)) in pairs.iter().enumerate() {
        if *name != order[place] {
            return false;
        }
    }
    true
}

/// The right sides that name nothing become constants.
fn evaluated(trail: &mut Trail, pairs: Pairs) -> Result<Pairs, Lost> {
    let alloc = trail.alloc();
    let (made, is_changed) = evaluated_sides(alloc, pairs.as_slice())?;
    if !is_changed {
        return Ok(made);
    }
    trail.forward(Law::Expr, &assign_of(alloc, made.as_slice())?)?;
    Ok(made)
}

/// The pairs with constants for the right sides that name nothing, and whether one of these wasn't a constant before.
fn evaluated_sides(alloc: Global, pairs: &[(Name, Expr)]) -> Result<(Pairs, bool), Memory> {
    let mut made = Vec::new(alloc);
    let mut is_changed = false;
    for (name, value) in pairs {
        let (side, is_other) = evaluated_side(alloc, value, is_changed)?;
        is_changed = is_other;
        made.push((*name, side))?;
    }
    Ok((made, is_changed))
}

/// A right side as a constant, where it names nothing, and whether it or one before it wasn't a constant.
fn evaluated_side(alloc: Global, value: &Expr, is_changed: bool) -> Result<(Expr, bool), Memory> {
    match made_constant(value) {
        Some(made) => Ok((made, true)),
        None => Ok((value.copy(alloc)?, is_changed)),
    }
}
