use crate::alt::{Alt, enter};
use crate::merging::{flat, has_unseen};
use crate::orders::{accepted, following, ranks};
use occ_derive_trail::{Law, Lost, Trail, choices_of, if_of, unseen};
use occ_syntax::{Choices, Guard, Proc, Scope, Wait};
use std::alloc::Global;
use std::mem::replace;

const DEPTH: u32 = 1_000_000;

/// Makes a compact normal part the process of a normal program: each event of an acceptance is offered by the ALT itself too,
/// and an ALT of events alone has all of them as its acceptance.
pub fn restore(trail: &mut Trail, params: &Scope, part: Proc) -> Result<Proc, Lost> {
    restored(trail, params, part, DEPTH)
}

#[cycle(restoring)]
fn restored(trail: &mut Trail, params: &Scope, part: Proc, depth: u32) -> Result<Proc, Lost> {
    if depth == 0 {
        return Err(Lost::NoStep);
    }
    let alloc = trail.alloc();
    let mut part = part;
    if let Proc::If(choices) = &mut part {
        let choices = replace(choices, Choices::new(alloc));
        return each_choice(trail, params, choices, depth - 1);
    }
    let alt = Alt::of(alloc, part)?;
    let alt = beneath(trail, params, alt, depth - 1)?;
    let alt = offering(trail, params, alt)?;
    Ok(alt.into_part(alloc)?)
}

#[cycle(restoring)]
fn each_choice(
    trail: &mut Trail,
    params: &Scope,
    choices: Choices,
    depth: u32,
) -> Result<Proc, Lost> {
    let alloc = trail.alloc();
    if depth == 0 {
        return Err(Lost::NoStep);
    }
    let mut list = Vec::new(alloc);
    let mut place: usize = 0;
    for (condition, part) in choices_of(alloc, choices)? {
        enter(trail, place)?;
        let part = restored(trail, params, part, depth - 1)?;
        trail.leave();
        list.push((condition, part))?;
        place = place.saturating_add(1);
    }
    Ok(if_of(alloc, list)?)
}

// What follows each event of an ALT and of its acceptances.
#[cycle(restoring)]
fn beneath(trail: &mut Trail, params: &Scope, alt: Alt, depth: u32) -> Result<Alt, Lost> {
    if depth == 0 {
        return Err(Lost::NoStep);
    }
    let mut list = Vec::with_capacity(trail.alloc(), alt.list.len())?;
    let mut place: usize = 0;
    for (guard, part) in alt.list {
        enter(trail, place)?;
        let part = match guard.wait {
            Wait::Skip => unseen_part(trail, params, part, depth - 1)?,
            _ => restored(trail, params, part, depth - 1)?,
        };
        trail.leave();
        list.push((guard, part))?;
        place = place.saturating_add(1);
    }
    Ok(Alt { list })
}

// An acceptance or an end.
#[cycle(restoring)]
fn unseen_part(trail: &mut Trail, params: &Scope, part: Proc, depth: u32) -> Result<Proc, Lost> {
    let alloc = trail.alloc();
    if depth == 0 {
        return Err(Lost::NoStep);
    }
    if !matches!(&part, Proc::Alt(_)) {
        return Ok(part);
    }
    let alt = Alt::of(alloc, part)?;
    let alt = beneath(trail, params, alt, depth - 1)?;
    Ok(alt.into_part(alloc)?)
}

// The ALT offers what its acceptances have.
fn offering(trail: &mut Trail, params: &Scope, alt: Alt) -> Result<Alt, Lost> {
    if !has_unseen(alt.list.as_slice()) {
        return slid(trail, alt);
    }
    let mut alt = alt;
    for place in (0..alt.list.len()).rev() {
        let own = unshared(trail.alloc(), params, alt.list.as_slice(), place)?;
        if !own.is_empty() {
            alt = offered(trail, params, alt, (place, own.as_slice()))?;
        }
    }
    alt.ordered(trail, params)
}

// An ALT of events alone, with all of them as an acceptance too.
fn slid(trail: &mut Trail, alt: Alt) -> Result<Alt, Lost> {
    let (mut alt, copy) = alt.copied(trail.alloc())?;
    alt.list.push((unseen(), copy))?;
    alt.backward(trail, Law::AltSlide)
}

// The ranks of the events of the acceptance at a place that no acceptance before it has.
fn unshared(
    alloc: Global,
    params: &Scope,
    list: &[(Guard, Proc)],
    place: usize,
) -> Result<Vec<u64>, Lost> {
    let mut own = Vec::new(alloc);
    let Some(branch) = list.get(place) else {
        return Ok(own);
    };
    let Some(branches) = accepted(branch) else {
        return Ok(own);
    };
    for rank in ranks(alloc, params, branches)? {
        if !stands_before(params, list, place, rank) {
            own.push(rank)?;
        }
    }
    Ok(own)
}

// Whether an acceptance before that place has an event.
fn stands_before(params: &Scope, list: &[(Guard, Proc)], place: usize, rank: u64) -> bool {
    for (number, branch) in list.iter().enumerate() {
        if number >= place {
            return false;
        }
        if let Some(branches) = accepted(branch) {
            if following(params, branches, rank).is_some() {
                return true;
            }
        }
    }
    false
}

// The events of these ranks, which the acceptance at a place has, stand in the ALT too.
fn offered(
    trail: &mut Trail,
    params: &Scope,
    mut alt: Alt,
    own: (usize, &[u64]),
) -> Result<Alt, Lost> {
    let alloc = trail.alloc();
    let (place, chosen) = own;
    let inner = Alt::of(alloc, alt.take(place)?)?;
    enter(trail, place)?;
    let inner = inner.led_by(trail, params, chosen)?;
    let (mut outer, copy) = inner.copied(alloc)?;
    outer.list.truncate(chosen.len());
    outer.list.push((unseen(), copy))?;
    let mut outer = outer.backward(trail, Law::AltSlide)?;
    let inner = Alt::of(alloc, outer.take(chosen.len())?)?;
    enter(trail, chosen.len())?;
    let inner = inner.ordered(trail, params)?;
    trail.leave();
    trail.leave();
    outer.put(chosen.len(), inner.into_part(alloc)?)?;
    alt.put(place, outer.into_part(alloc)?)?;
    flat(trail, alt, place)
}
