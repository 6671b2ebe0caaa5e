ghost use Rattle.std.specs.Prelude.{◌≡◌, ◌||◌, ◌&&◌, true, not, OnOk, IfOk, MatchOption};
ghost use Rattle.occ_node.specs.occ_accept.Order.{strict};
ghost use Rattle.occ_node.specs.occ_accept.Accept.{in_set};
ghost use Rattle.occ_syntax.specs.occ_base.declared.event.Event.{Event};
ghost use Rattle.occ_node.specs.Offers.{is_offered, offer_cmp};
ghost use Rattle.occ_compare.specs.declared.offers.Level.TheVariants.{Nodes};
ghost use Rattle.occ_compare.specs.Walk.{IsRefusal};
ghost use Rattle.occ_compare.specs.Steps.{differ, DifferNowhere, IsLeastDiffering, IsLeastEvent};

use crate::ends::same_node;
use crate::events::{in_order, listed};
use occ_node::{AcceptSet, Offers};
use occ_syntax::{Event, Events, Kind, Memory, Name};
use std::alloc::Global;

// By what two rows are compared at an event: by whether they offer it, or by the nodes behind it.
#[derive(Clone, Copy)]
enum Level {
    Events,
    Nodes,
}

// Whether two rows differ at an event.
fn differs(p: &Offers, q: &Offers, level: Level, event: Event) -> bool
    requires first { strict offer_cmp p.now ≡ true }
    requires second { strict offer_cmp q.now ≡ true }
    ensures { result ≡ differ level p.now q.now event }
{
    let first = p.find(event);
    let second = q.find(event);
    match level {
        Level::Events => first.is_some() != second.is_some(),
        Level::Nodes => !same_node(first, second),
    }
}

// Adds the events of some offers at which two rows differ.
fn add_differing(
    events: &mut Vec<Event>,
    offers: &Offers,
    p: &Offers,
    q: &Offers,
    level: Level,
) -> Result<(), Memory>
    requires first { strict offer_cmp p.now ≡ true }
    requires second { strict offer_cmp q.now ≡ true }
    ensures { OnOk result ((e : Event) → in_set events.new.items e ≡ (in_set events.old.items e || (is_offered offers.now e && differ level p.now q.now e))) }
{
    for offer in offers.items() {
        if differs(p, q, level, offer.0) {
            events.push(offer.0)?;
        }
    }
    Ok(())
}

// The least event at which two rows differ.
fn least_differing(
    alloc: Global,
    params: &[(Name, Kind)],
    p: &Offers,
    q: &Offers,
    level: Level,
) -> Result<Option<Event>, Memory>
    requires first { strict offer_cmp p.now ≡ true }
    requires second { strict offer_cmp q.now ≡ true }
    ensures { IfOk result (λ r. MatchOption r (DifferNowhere level p.now q.now) (IsLeastDiffering params.now level p.now q.now)) }
{
    let mut events = Vec::new(alloc);
    add_differing(&mut events, p, p, q, level)?;
    add_differing(&mut events, q, p, q, level)?;
    let events = in_order(params, events);
    match events.as_slice() {
        [] => Ok(None),
        [least, ..] => Ok(Some(*least)),
    }
}

// The least event that only one of two rows offers, or else the least that leads to two nodes.
pub(crate) fn least_event(
    alloc: Global,
    params: &[(Name, Kind)],
    p: &Offers,
    q: &Offers,
) -> Result<Option<Event>, Memory>
    requires first { strict offer_cmp p.now ≡ true }
    requires second { strict offer_cmp q.now ≡ true }
    ensures { IfOk result (λ r. MatchOption r (DifferNowhere Nodes p.now q.now) (IsLeastEvent params.now p.now q.now)) }
{
    match least_differing(alloc, params, p, q, Level::Events)? {
        Some(event) => Ok(Some(event)),
        None => least_differing(alloc, params, p, q, Level::Nodes),
    }
}

// Adds the events of some offers that are outside a set.
fn add_outside(events: &mut Vec<Event>, offers: &Offers, set: &AcceptSet) -> Result<(), Memory>
    ensures { OnOk result ((e : Event) → in_set events.new.items e ≡ (in_set events.old.items e || (is_offered offers.now e && not (in_set set.now e)))) }
{
    for offer in offers.items() {
        if !set.has(offer.0) {
            events.push(offer.0)?;
        }
    }
    Ok(())
}

/// The events that either of two rows offers outside a set, in the order of printing.
pub fn refusal(
    alloc: Global,
    params: &[(Name, Kind)],
    p: &Offers,
    q: &Offers,
    set: &[Event],
) -> Result<Events, Memory>
    ensures { IfOk result (λ events. IsRefusal params.now p.now q.now set.now events) }
{
    let set = AcceptSet::gather(Vec::from_slice(alloc, set)?);
    let mut events = Vec::new(alloc);
    add_outside(&mut events, p, &set)?;
    add_outside(&mut events, q, &set)?;
    let events = in_order(params, events);
    listed(alloc, events.as_slice())
}
