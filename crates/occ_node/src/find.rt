ghost use Rattle.std.specs.Prelude.{◌≡◌, true};
ghost use Rattle.occ_accept.specs.Order.{strict};
ghost use Rattle.occ_accept.specs.Accept.{in_set, misses, refuses};
ghost use Rattle.occ_node.specs.Offers.{next_in, offer_cmp};

use crate::NodeId;
use occ_accept::{AcceptSet, Event};

// The node that is offered at an event, among offers that increase strictly.
pub(crate) fn find(offers: &[(Event, NodeId)], event: Event) -> Option<NodeId>
    requires { strict offer_cmp offers.now ≡ true }
    ensures { result ≡ next_in offers.now event }
{
    match offers.binary_search_by_key(&event, |offer| offer.0) {
        Ok(place) => Some(offers[place].1),
        Err(_) => None,
    }
}

// Whether an event is among some events.
fn is_among(events: &[Event], event: Event) -> bool
    ensures { result ≡ in_set events.now event }
{
    events.contains(&event)
}

// Whether none of the refused events is in the set.
fn misses(refused: &[Event], set: &AcceptSet) -> bool
    ensures { result ≡ misses (in_set refused.now) set.now }
{
    set.items().iter().all(|event| !is_among(refused, *event))
}

// Whether one of the sets holds none of the refused events.
pub(crate) fn can_refuse(sets: &[AcceptSet], refused: &[Event]) -> bool
    ensures { result ≡ refuses sets.now (in_set refused.now) }
{
    sets.iter().any(|set| misses(refused, set))
}
