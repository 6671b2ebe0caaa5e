ghost use Rattle.std.specs.Prelude.{◌≡◌, true, IfOk, MatchOption, Some, if◌then◌else◌};
ghost use Rattle.std.specs.Ordering.{is_lt};
ghost use Rattle.std.specs.Cmp.Lexicographic.{slice_cmp};
ghost use Rattle.occ_node.specs.occ_accept.Order.{event_cmp, strict};
ghost use Rattle.occ_compare.specs.Orders.{set_cmp, has_set};
ghost use Rattle.occ_compare.specs.Walk.{SameSets};
ghost use Rattle.occ_compare.specs.Steps.{AllIn, Chooses, IsLeastOnly, IsLesserSide};

use crate::events::{in_order, is_less};
use occ_behaviour::Side;
use occ_node::AcceptSet;
use occ_syntax::{Event, Kind, Memory, Name};
use std::alloc::Global;
use std::cmp::Ordering;

// The events of a set that only one row accepts, in the order of printing, and which row it is.
#[derive(Drop)]
pub(crate) struct Chosen {
    pub events: Vec<Event>,
    pub only: Side,
}

// Sets by their first difference, in the order in which a row keeps them.
fn set_order(a: &AcceptSet, b: &AcceptSet) -> Ordering
    ensures { result ≡ slice_cmp event_cmp a.now b.now }
{
    a.items().cmp(b.items())
}

// Whether a set is one of some sets, which increase strictly.
fn is_among(sets: &[AcceptSet], set: &AcceptSet) -> bool
    requires { strict (slice_cmp event_cmp) sets.now ≡ true }
    ensures { result ≡ has_set sets.now set.now }
{
    sets.binary_search_by(|other| set_order(other, set)).is_ok()
}

// The lesser of a set and the least one so far.
fn lesser(params: &[(Name, Kind)], best: Option<Vec<Event>>, events: Vec<Event>) -> Vec<Event>
    ensures { MatchOption best (result ≡ events) (λ b. result ≡ (if is_lt (set_cmp params.now events.items b.items) then events else b)) }
{
    match best {
        None => events,
        Some(best) => {
            if is_less(params, &events, &best) {
                events
            } else {
                best
            }
        }
    }
}

// The least of the sets that one row has and the other hasn't.
fn least_only(
    alloc: Global,
    params: &[(Name, Kind)],
    own: &[AcceptSet],
    other: &[AcceptSet],
) -> Result<Option<Vec<Event>>, Memory>
    requires { strict (slice_cmp event_cmp) other.now ≡ true }
    ensures { IfOk result (λ r. MatchOption r (AllIn own.now other.now) (λ list. IsLeastOnly params.now own.now other.now list.items)) }
{
    let mut best: Option<Vec<Event>> = None;
    for set in own {
        if !is_among(other, set) {
            let events = Vec::from_slice(alloc, set.items())?;
            let events = in_order(params, events);
            best = Some(lesser(params, best, events));
        }
    }
    Ok(best)
}

// The least of the sets that only one of two rows has.
pub(crate) fn least_set(
    alloc: Global,
    params: &[(Name, Kind)],
    a: &[AcceptSet],
    b: &[AcceptSet],
) -> Result<Option<Chosen>, Memory>
    requires first { strict (slice_cmp event_cmp) a.now ≡ true }
    requires second { strict (slice_cmp event_cmp) b.now ≡ true }
    ensures { IfOk result (λ r. MatchOption r (SameSets a.now b.now) (Chooses params.now a.now b.now)) }
{
    let first = least_only(alloc, params, a, b)?;
    let second = least_only(alloc, params, b, a)?;
    match (first, second) {
        (None, None) => Ok(None),
        (Some(events), None) => Ok(Some(Chosen {
            events,
            only: Side::First,
        })),
        (None, Some(events)) => Ok(Some(Chosen {
            events,
            only: Side::Second,
        })),
        (Some(first), Some(second)) => Ok(Some(lesser_side(params, first, second))),
    }
}

// The lesser of two sets, one of each side.
fn lesser_side(params: &[(Name, Kind)], first: Vec<Event>, second: Vec<Event>) -> Chosen
    ensures { IsLesserSide params.now first.items second.items result }
{
    if is_less(params, &second, &first) {
        Chosen {
            events: second,
            only: Side::Second,
        }
    } else {
        Chosen {
            events: first,
            only: Side::First,
        }
    }
}
