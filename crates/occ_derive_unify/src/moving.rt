use crate::alt::{Alt, Rows, enter};
use crate::merging::{joined, once};
use crate::orders::{Key, following, rank};
use occ_derive_trail::{Law, Lost, Trail};
use occ_syntax::{Guard, Proc, Scope, same_proc};

/// The place of the first acceptance with an event of that rank: its home. None where no acceptance has one.
pub(crate) fn home(params: &Scope, alt: &Alt, wanted: u64) -> Option<usize> {
    for place in 0..alt.list.len() {
        if follows(params, alt, place, wanted).is_some() {
            return Some(place);
        }
    }
    None
}

/// What follows the event of that rank in the acceptance at a place.
fn follows<'a>(params: &Scope, alt: &'a Alt, place: usize, wanted: u64) -> Option<&'a Proc> {
    match alt.accepted(place) {
        Some(branches) => following(params, branches, wanted),
        None => None,
    }
}

/// An event that stands in acceptances and is worked on: its rank and its home.
#[derive(Clone, Copy)]
struct Event {
    rank: u64,
    home: usize,
}

impl Event {
    // The event with another acceptance in the home's place.
    fn at(self, home: usize) -> Event {
        Event {
            rank: self.rank,
            home,
        }
    }

    // Whether an acceptance has the event and goes on otherwise behind it than its home.
    fn differs(self, params: &Scope, alt: &Alt, place: usize) -> bool {
        let Some(part) = follows(params, alt, self.home, self.rank) else {
            return false;
        };
        match follows(params, alt, place, self.rank) {
            Some(other) => !same_proc(part, other),
            None => false,
        }
    }
}

/// Makes what follows an event the same in all acceptances that have it, with all that followed it in the ALT's own branches,
/// which stand there no longer.
pub(crate) fn gathered(
    trail: &mut Trail,
    params: &Scope,
    alt: Alt,
    rank: u64,
) -> Result<Alt, Lost> {
    let Some(home) = home(params, &alt, rank) else {
        return Ok(alt);
    };
    let event = Event { rank, home };
    let alt = all_copied_out(trail, params, alt, event)?;
    if !has_own(params, alt.list.as_slice(), rank) {
        return Ok(alt);
    }
    let (alt, home) = moved_in(trail, params, alt, event)?;
    handed_out(trail, params, alt, Event { rank, home })
}

fn has_own(params: &Scope, list: &[(Guard, Proc)], wanted: u64) -> bool {
    for (guard, _) in list {
        if rank(params, guard) == Some(wanted) {
            return true;
        }
    }
    false
}

// Each acceptance behind the home that goes on otherwise gives the ALT a branch of its own.
fn all_copied_out(
    trail: &mut Trail,
    params: &Scope,
    mut alt: Alt,
    event: Event,
) -> Result<Alt, Lost> {
    for place in (0..alt.list.len()).rev() {
        if event.differs(params, &alt, place) {
            alt = copied_out(trail, params, alt, event.at(place))?;
        }
    }
    Ok(alt)
}

// A copy of the event's branch in its home stands in front of it as the ALT's own.
fn copied_out(trail: &mut Trail, params: &Scope, mut alt: Alt, event: Event) -> Result<Alt, Lost> {
    let alloc = trail.alloc();
    let inner = Alt::of(alloc, alt.take(event.home)?)?;
    enter(trail, event.home)?;
    let inner = inner.led_by(trail, params, &[event.rank])?;
    let mut inner = doubled(trail, inner)?;
    trail.leave();
    let branch = inner.remove(0)?;
    alt.put(event.home, inner.into_part(alloc)?)?;
    alt.insert(event.home, branch)?;
    alt.backward(trail, Law::AltSplit)
}

// The first branch twice.
fn doubled(trail: &mut Trail, alt: Alt) -> Result<Alt, Lost> {
    let alloc = trail.alloc();
    let (mut alt, copy) = alt.copied(alloc)?;
    let first = Alt::of(alloc, copy)?.remove(0)?;
    alt.insert(0, first)?;
    alt.backward(trail, Law::AltTwice)
}

/// Moves the ALT's own branches of the event of that rank into its home, where an acceptance has it.
pub(crate) fn housed(trail: &mut Trail, params: &Scope, alt: Alt, rank: u64) -> Result<Alt, Lost> {
    let Some(home) = home(params, &alt, rank) else {
        return Ok(alt);
    };
    let (alt, _) = moved_in(trail, params, alt, Event { rank, home })?;
    Ok(alt)
}

// The ALT's own branches of an event go into its home, and what follows becomes one superposition. Gives the new place of the
// home too.
fn moved_in(
    trail: &mut Trail,
    params: &Scope,
    alt: Alt,
    event: Event,
) -> Result<(Alt, usize), Lost> {
    let (before, own) = counted(params, alt.list.as_slice(), event);
    let alt = put_in_front(trail, params, alt, event)?;
    let home = before.saturating_add(own);
    let mut alt = alt.led_inside(trail, params, home, &[event.rank])?;
    for place in (before..home).rev() {
        alt = split(trail, alt, place)?;
    }
    let alt = joined_inside(trail, params, alt, before)?;
    Ok((alt, before))
}

// How many other branches stand before the home, and how many of the event's own there are.
fn counted(params: &Scope, list: &[(Guard, Proc)], event: Event) -> (usize, usize) {
    let mut before: usize = 0;
    let mut own: usize = 0;
    for (place, (guard, _)) in list.iter().enumerate() {
        if rank(params, guard) == Some(event.rank) {
            own = own.saturating_add(1);
        } else if place < event.home {
            before = before.saturating_add(1);
        }
    }
    (before, own)
}

// The event's own branches stand directly in front of its home.
fn put_in_front(trail: &mut Trail, params: &Scope, alt: Alt, event: Event) -> Result<Alt, Lost> {
    let alloc = trail.alloc();
    let mut rows = Rows::new(alloc);
    for branch in alt.list {
        let key = if rank(params, &branch.0) == Some(event.rank) {
            Key::of(alloc, event.home as u64)
        } else {
            Key::behind(alloc, rows.count() as u64)?
        };
        rows.push(key, branch)?;
    }
    rows.arranged(trail)
}

// The branch at a place goes into the acceptance behind it, as its first.
fn split(trail: &mut Trail, mut alt: Alt, place: usize) -> Result<Alt, Lost> {
    let alloc = trail.alloc();
    let branch = alt.remove(place)?;
    let mut inner = Alt::of(alloc, alt.take(place)?)?;
    inner.insert(0, branch)?;
    alt.put(place, inner.into_part(alloc)?)?;
    alt.forward(trail, Law::AltSplit)
}

// Neighbours of one guard in the acceptance at a place become one.
fn joined_inside(
    trail: &mut Trail,
    params: &Scope,
    mut alt: Alt,
    place: usize,
) -> Result<Alt, Lost> {
    let alloc = trail.alloc();
    let inner = Alt::of(alloc, alt.take(place)?)?;
    enter(trail, place)?;
    let inner = once(trail, params, inner)?;
    let inner = joined(trail, params, inner)?;
    trail.leave();
    alt.put(place, inner.into_part(alloc)?)?;
    Ok(alt)
}

// What the home now has goes to all acceptances that have less.
fn handed_out(trail: &mut Trail, params: &Scope, mut alt: Alt, event: Event) -> Result<Alt, Lost> {
    for place in 0..alt.list.len() {
        if event.differs(params, &alt, place) {
            alt = copied_out(trail, params, alt, event)?;
            let other = event.at(place.saturating_add(1));
            (alt, _) = moved_in(trail, params, alt, other)?;
        }
    }
    Ok(alt)
}
