use crate::absorbing::absorbed;
use crate::alt::{Alt, enter};
use crate::merging::{merged, once};
use crate::moving::gathered;
use crate::orders::{accepted, ranks};
use occ_derive_trail::{Lost, Trail};
use occ_syntax::{Guard, Proc, Scope};
use std::alloc::Global;

/// Makes a settled ALT one in which each event stands once in the ALT itself, or else in acceptances, where one and the same
/// superposition follows it; no acceptance has all events of another, and all is in the order of a normal program.
pub fn unify(trail: &mut Trail, params: &Scope, part: Proc) -> Result<Proc, Lost> {
    let alloc = trail.alloc();
    let alt = Alt::of(alloc, part)?;
    let alt = each_merged(trail, params, alt)?;
    let mut alt = once(trail, params, alt)?;
    let shared = shared_ranks(alloc, params, alt.list.as_slice())?;
    for rank in shared {
        alt = gathered(trail, params, alt, rank)?;
    }
    alt = each_ordered(trail, params, alt)?;
    alt = merged(trail, params, alt)?;
    alt = absorbed(trail, params, alt)?;
    Ok(alt.into_part(alloc)?)
}

fn each_merged(trail: &mut Trail, params: &Scope, mut alt: Alt) -> Result<Alt, Lost> {
    let alloc = trail.alloc();
    for place in 0..alt.list.len() {
        if alt.accepted(place).is_some() {
            let inner = Alt::of(alloc, alt.take(place)?)?;
            enter(trail, place)?;
            let inner = merged(trail, params, inner)?;
            trail.leave();
            alt.put(place, inner.into_part(alloc)?)?;
        }
    }
    Ok(alt)
}

/// Puts the events of each acceptance into their order.
pub(crate) fn each_ordered(trail: &mut Trail, params: &Scope, mut alt: Alt) -> Result<Alt, Lost> {
    let alloc = trail.alloc();
    for place in 0..alt.list.len() {
        if alt.accepted(place).is_some() {
            let inner = Alt::of(alloc, alt.take(place)?)?;
            enter(trail, place)?;
            let inner = inner.ordered(trail, params)?;
            trail.leave();
            alt.put(place, inner.into_part(alloc)?)?;
        }
    }
    Ok(alt)
}

// The ranks of all events of acceptances, each once and in order.
fn shared_ranks(alloc: Global, params: &Scope, list: &[(Guard, Proc)]) -> Result<Vec<u64>, Lost> {
    let mut shared = Vec::new(alloc);
    for branch in list {
        if let Some(branches) = accepted(branch) {
            let more = ranks(alloc, params, branches)?;
            shared.extend_from_slice(more.as_slice())?;
        }
    }
    shared.sort_unstable();
    shared.dedup();
    Ok(shared)
}
