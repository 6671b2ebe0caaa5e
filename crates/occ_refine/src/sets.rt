ghost use Rattle.std.specs.Prelude.{◌≡◌, IfOk, MatchOption, if◌then◌else◌};
ghost use Rattle.std.specs.Ordering.{is_lt};
ghost use Rattle.occ_norm.specs.occ_accept.Accept.{is_part};
ghost use Rattle.occ_norm.specs.occ_compare.Orders.{set_cmp};
ghost use Rattle.occ_refine.specs.Rows.{is_met, AllMet, IsLeastUnmet};

use occ_norm::{AcceptSet, in_order, is_less};
use occ_syntax::{Event, Kind, Memory, Name};
use std::alloc::Global;

// Whether each event of a set is in the other.
fn is_part(part: &AcceptSet, set: &AcceptSet) -> bool
    ensures { result ≡ is_part part.now set.now }
{
    part.items().iter().all(|event| set.has(*event))
}

// Whether one of the sets is a part of this one.
fn is_met(sets: &[AcceptSet], set: &AcceptSet) -> bool
    ensures { result ≡ is_met sets.now set.now }
{
    sets.iter().any(|part| is_part(part, set))
}

// The lesser of a set and the least one so far.
fn lesser(params: &[(Name, Kind)], best: Option<Vec<Event>>, events: Vec<Event>) -> Vec<Event>
    ensures { MatchOption best (result ≡ events) (λ b. result ≡ (if is_lt (set_cmp params.now events.items b.items) then events else b)) }
{
    match best {
        None => events,
        Some(best) => {
            if is_less(params, &events, &best) {
                events
            } else {
                best
            }
        }
    }
}

// The least of the sets of one row of which no set of the other row is a part.
pub fn least_unmet(
    alloc: Global,
    params: &[(Name, Kind)],
    own: &[AcceptSet],
    other: &[AcceptSet],
) -> Result<Option<Vec<Event>>, Memory>
    ensures { IfOk result (λ r. MatchOption r (AllMet own.now (is_met other.now)) (λ list. IsLeastUnmet params.now own.now (is_met other.now) list.items)) }
{
    let mut best: Option<Vec<Event>> = None;
    for set in own {
        if !is_met(other, set) {
            let events = Vec::from_slice(alloc, set.items())?;
            let events = in_order(params, events);
            best = Some(lesser(params, best, events));
        }
    }
    Ok(best)
}
