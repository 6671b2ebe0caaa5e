use crate::alt::{Alt, enter};
use crate::orders::rank;
use occ_derive_trail::{Law, Lost, Trail, alt_of, unseen};
use occ_syntax::{Guard, Memory, Proc, Scope, Wait, same_proc};
use std::alloc::Global;

/// Makes an ALT one with each guard once, in the order of a normal program: what follows a guard is what followed it before,
/// one after another as one superposition.
pub fn merge(trail: &mut Trail, params: &Scope, part: Proc) -> Result<Proc, Lost> {
    let whole = Alt::of(trail.alloc(), part)?;
    let made = merged(trail, params, whole)?;
    let part = made.into_part(trail.alloc())?;
    Ok(part)
}

pub(crate) fn merged(trail: &mut Trail, params: &Scope, alt: Alt) -> Result<Alt, Lost> {
    let first = once(trail, params, alt)?;
    let second = first.ordered(trail, params)?;
    joined(trail, params, second)
}

/// Takes out each branch that equals one before it.
pub(crate) fn once(trail: &mut Trail, params: &Scope, mut alt: Alt) -> Result<Alt, Lost> {
    for place in (0..alt.list.len()).rev() {
        alt = once_at(trail, params, alt, place)?;
    }
    Ok(alt)
}

// Takes out the branch at a place where it equals one before it.
fn once_at(trail: &mut Trail, params: &Scope, mut alt: Alt, place: usize) -> Result<Alt, Lost> {
    let twice = is_twice(params, alt.list.as_slice(), place);
    if !twice {
        return Ok(alt);
    }
    let _ = alt.remove(place)?;
    let made = alt.forward(trail, Law::AltTwice)?;
    Ok(made)
}

fn is_twice(params: &Scope, list: &[(Guard, Proc)], place: usize) -> bool {
    if place >= list.len() {
        return false;
    }
    is_among(params, &list[..place], &list[place])
}

fn is_among(params: &Scope, list: &[(Guard, Proc)], branch: &(Guard, Proc)) -> bool {
    for other in list {
        if is_alike(params, other, branch) {
            return true;
        }
    }
    false
}

// Whether two branches wait for one event, or both for nothing, and go on as one process.
fn is_alike(params: &Scope, branch: &(Guard, Proc), other: &(Guard, Proc)) -> bool {
    is_one_rank(params, &branch.0, &other.0) && same_proc(&branch.1, &other.1)
}

// Whether two guards wait for one event, or both for nothing.
fn is_one_rank(params: &Scope, first: &Guard, second: &Guard) -> bool {
    match rank(params, first) {
        Some(one) => match rank(params, second) {
            Some(other) => one == other,
            None => false,
        },
        None => rank(params, second).is_none(),
    }
}

/// Brings together what follows one event in branches that stand next to each other.
pub(crate) fn joined(trail: &mut Trail, params: &Scope, mut alt: Alt) -> Result<Alt, Lost> {
    for place in (0..alt.list.len()).rev() {
        alt = joined_at(trail, params, alt, place)?;
    }
    Ok(alt)
}

// Brings together what follows one event in the branch at a place and in the next one.
fn joined_at(trail: &mut Trail, params: &Scope, alt: Alt, place: usize) -> Result<Alt, Lost> {
    let again = waits_as_next(params, alt.list.as_slice(), place);
    if !again {
        return Ok(alt);
    }
    same(trail, alt, place)
}

// Whether the branch at a place waits for the event for which the next one waits.
fn waits_as_next(params: &Scope, list: &[(Guard, Proc)], place: usize) -> bool {
    let count = list.len();
    if count < 2 {
        return false;
    }
    if place > count - 2 {
        return false;
    }
    let next = place + 1;
    is_one_event(params, &list[place].0, &list[next].0)
}

fn is_one_event(params: &Scope, first: &Guard, second: &Guard) -> bool {
    !is_unseen(first) && is_one_rank(params, first, second)
}

// One branch of two that wait for one event, the first at that place.
fn same(trail: &mut Trail, alt: Alt, place: usize) -> Result<Alt, Lost> {
    let pair = together(trail, alt, place)?;
    leveled(trail, pair, place)
}

// The processes of the branch at a place and of the next one, which has the same guard, become branches of one ALT.
fn together(trail: &mut Trail, mut alt: Alt, place: usize) -> Result<Alt, Lost> {
    let (_, first) = alt.remove(place)?;
    let second = alt.take(place)?;
    let part = two_of(trail.alloc(), first, second)?;
    alt.put(place, part)?;
    let made = alt.forward(trail, Law::AltSame)?;
    Ok(made)
}

fn two_of(alloc: Global, first: Proc, second: Proc) -> Result<Proc, Memory> {
    let mut list = Vec::with_capacity(alloc, 2)?;
    list.push((unseen(), first))?;
    list.push((unseen(), second))?;
    alt_of(alloc, list)
}

// Two superpositions that stand as branches of an ALT at a place become one.
fn leveled(trail: &mut Trail, mut alt: Alt, place: usize) -> Result<Alt, Lost> {
    let part = alt.take(place)?;
    let two = Alt::of(trail.alloc(), part)?;
    enter(trail, place)?;
    let one = level(trail, two)?;
    trail.leave();
    alt.put(place, one)?;
    Ok(alt)
}

// One superposition of two that stand as branches of an ALT.
fn level(trail: &mut Trail, alt: Alt) -> Result<Proc, Lost> {
    let second = opened(trail, alt, 1)?;
    let first = opened(trail, second, 0)?;
    let params = Scope::new(trail.alloc());
    let states = once(trail, &params, first)?;
    let made = alone(trail, states)?;
    Ok(made)
}

// The states of the superposition at a place in its place.
fn opened(trail: &mut Trail, alt: Alt, place: usize) -> Result<Alt, Lost> {
    let several = is_superposition(alt.list.as_slice(), place);
    if !several {
        return Ok(alt);
    }
    flat(trail, alt, place)
}

fn is_superposition(list: &[(Guard, Proc)], place: usize) -> bool {
    if place >= list.len() {
        return false;
    }
    goes_on_at_once(&list[place].1)
}

// Whether a process is an ALT in which some branch waits for nothing.
fn goes_on_at_once(part: &Proc) -> bool {
    match part {
        Proc::Alt(list) => has_unseen(list.items()),
        _ => false,
    }
}

/// Whether some branch waits for nothing.
pub(crate) fn has_unseen(list: &[(Guard, Proc)]) -> bool {
    for (guard, _) in list {
        if is_unseen(guard) {
            return true;
        }
    }
    false
}

fn is_unseen(guard: &Guard) -> bool {
    matches!(guard.wait, Wait::Skip)
}

// The process of the one branch of an ALT, or the ALT where it has several.
fn alone(trail: &mut Trail, mut whole: Alt) -> Result<Proc, Lost> {
    if whole.list.len() != 1 {
        let made = whole.into_part(trail.alloc())?;
        return Ok(made);
    }
    let part = whole.take(0)?;
    trail.forward(Law::AltSkip, &part)?;
    Ok(part)
}

/// Puts the branches of the ALT that stands behind an unseen guard in the place of that guard's branch.
pub(crate) fn flat(trail: &mut Trail, mut whole: Alt, place: usize) -> Result<Alt, Lost> {
    let (_, part) = whole.remove(place)?;
    let inner = Alt::of(trail.alloc(), part)?;
    let list = with_all(whole.list, place, inner.list)?;
    let made = Alt { list }.forward(trail, Law::AltFlat)?;
    Ok(made)
}

// The branches with others in front of that place.
fn with_all(
    mut list: Vec<(Guard, Proc)>,
    place: usize,
    mut more: Vec<(Guard, Proc)>,
) -> Result<Vec<(Guard, Proc)>, Lost> {
    if place > list.len() {
        return Err(Lost::NoStep);
    }
    let mut back = list.split_off(place)?;
    list.append(&mut more)?;
    list.append(&mut back)?;
    Ok(list)
}
