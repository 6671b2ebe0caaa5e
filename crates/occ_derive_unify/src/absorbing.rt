use crate::alt::{Alt, Rows, enter};
use crate::merging::{flat, merged};
use crate::moving::housed;
use crate::orders::{Key, ranks};
use crate::unifying::each_ordered;
use occ_derive_trail::{Law, Lost, Trail, alt_of, unseen};
use occ_syntax::Scope;
use std::alloc::Global;

/// Leaves no acceptance that has all events of another.
pub(crate) fn absorbed(trail: &mut Trail, params: &Scope, mut alt: Alt) -> Result<Alt, Lost> {
    for _ in 0..alt.list.len() {
        let sets = sets(trail.alloc(), params, &alt)?;
        match containing(sets.as_slice()) {
            Some((less, more)) => alt = parted(trail, params, alt, (less, more))?,
            None => return Ok(alt),
        }
    }
    Ok(alt)
}

// The ranks of an acceptance's events, with its place.
#[derive(Drop)]
struct Set {
    place: usize,
    ranks: Vec<u64>,
}

fn sets(alloc: Global, params: &Scope, alt: &Alt) -> Result<Vec<Set>, Lost> {
    let mut sets = Vec::new(alloc);
    for place in 0..alt.list.len() {
        if let Some(branches) = alt.accepted(place) {
            let ranks = ranks(alloc, params, branches)?;
            sets.push(Set { place, ranks })?;
        }
    }
    Ok(sets)
}

// The places of the first acceptance that has all events of another and more, and of that other one, which comes first.
fn containing(sets: &[Set]) -> Option<(usize, usize)> {
    for set in sets {
        if let Some(less) = contained(sets, set.ranks.as_slice()) {
            return Some((less, set.place));
        }
    }
    None
}

fn contained(sets: &[Set], ranks: &[u64]) -> Option<usize> {
    for set in sets {
        if set.ranks.len() < ranks.len() && is_within(set.ranks.as_slice(), ranks) {
            return Some(set.place);
        }
    }
    None
}

// Whether a list is a part of another, both in order.
fn is_within(less: &[u64], more: &[u64]) -> bool {
    let mut rest = less;
    for rank in more {
        if let [first, others @ ..] = rest {
            if first == rank {
                rest = others;
            }
        }
    }
    rest.is_empty()
}

// What an acceptance has beyond another that it contains becomes the ALT's own.
fn parted(
    trail: &mut Trail,
    params: &Scope,
    alt: Alt,
    places: (usize, usize),
) -> Result<Alt, Lost> {
    let alloc = trail.alloc();
    let (less, more) = places;
    let common = match alt.accepted(less) {
        Some(branches) => ranks(alloc, params, branches)?,
        None => return Err(Lost::NoStep),
    };
    let alt = alt.led_inside(trail, params, more, common.as_slice())?;
    let alt = put_last(trail, alt, less, more)?;
    let (alt, beyond) = least(trail, params, alt, common.len())?;
    let mut alt = alt;
    for rank in beyond {
        alt = housed(trail, params, alt, rank)?;
    }
    let alt = each_ordered(trail, params, alt)?;
    merged(trail, params, alt)
}

fn put_last(trail: &mut Trail, alt: Alt, less: usize, more: usize) -> Result<Alt, Lost> {
    let alloc = trail.alloc();
    let mut rows = Rows::new(alloc);
    for branch in alt.list {
        let place = rows.count();
        let key = if place == more {
            2
        } else if place == less {
            1
        } else {
            0
        };
        rows.push(Key::of(alloc, key), branch)?;
    }
    rows.arranged(trail)
}

// The last two branches are acceptances, and the second begins with all of the first, so many branches. Gives the ranks of the
// others too.
fn least(
    trail: &mut Trail,
    params: &Scope,
    mut alt: Alt,
    count: usize,
) -> Result<(Alt, Vec<u64>), Lost> {
    let alloc = trail.alloc();
    let (Some(more), Some(less)) = (alt.list.pop(), alt.list.pop()) else {
        return Err(Lost::NoStep);
    };
    let place = alt.list.len();
    let mut pair = Vec::with_capacity(alloc, 2)?;
    pair.push(less)?;
    pair.push(more)?;
    alt.list.push((unseen(), alt_of(alloc, pair)?))?;
    let mut alt = alt.backward(trail, Law::AltFlat)?;
    let pair = Alt::of(alloc, alt.take(place)?)?;
    let own = beyond(trail.alloc(), pair, count)?;
    let ranks = ranks(alloc, params, own.list.as_slice())?;
    enter(trail, place)?;
    let own = own.forward(trail, Law::AltLeast)?;
    trail.leave();
    alt.put(place, own.into_part(alloc)?)?;
    Ok((flat(trail, alt, place)?, ranks))
}

// Of two acceptances the first, behind what the second has beyond the first branches.
fn beyond(alloc: Global, mut pair: Alt, count: usize) -> Result<Alt, Lost> {
    let more = Alt::of(alloc, pair.take(1)?)?;
    let less = pair.remove(0)?;
    let mut list = Vec::with_capacity(alloc, more.list.len())?;
    let mut place: usize = 0;
    for branch in more.list {
        if place >= count {
            list.push(branch)?;
        }
        place = place.saturating_add(1);
    }
    list.push(less)?;
    Ok(Alt { list })
}
