ghost use Rattle.std.specs.Prelude.{◌≡◌, IfOk};
ghost use Rattle.std.specs.Ordering.{is_lt};
ghost use Rattle.occ_compare.specs.Orders.{print_cmp, list_cmp, set_cmp, IsListOf};

use occ_behaviour::place_in;
use occ_syntax::{Event, Events, Kind, Memory, Name};
use std::alloc::Global;
use std::cmp::Ordering;

// The order of printing: by the place of the channel, then by value. Direction and number come last.
pub(crate) fn print_order(params: &[(Name, Kind)], a: Event, b: Event) -> Ordering
    ensures { result ≡ print_cmp params.now a b }
{
    let places = place_in(params, a.chan).cmp(&place_in(params, b.chan));
    let values = a.value.cmp(&b.value);
    let rest = a.dir.cmp(&b.dir).then(a.chan.0.cmp(&b.chan.0));
    places.then(values.then(rest))
}

/// The events in the order of printing, each once.
pub fn in_order(params: &[(Name, Kind)], mut events: Vec<Event>) -> Vec<Event>
    ensures { IsListOf params.now events.items result.items }
{
    events.sort_unstable_by(|a, b| print_order(params, *a, *b));
    events.dedup();
    events
}

/// Lists of events by their first difference.
pub fn list_order(params: &[(Name, Kind)], a: &[Event], b: &[Event]) -> Ordering
    ensures { result ≡ list_cmp params.now a.now b.now }
{
    let mut place = 0;
    while place < a.len() && place < b.len() {
        let order = print_order(params, a[place], b[place]);
        if order != Ordering::Equal {
            return order;
        }
        place += 1;
    }
    a.len().cmp(&b.len())
}

/// Whether a set, as a list in the order of printing, goes before another: it is smaller, or of the same size and before it as a list.
pub fn is_less(params: &[(Name, Kind)], a: &[Event], b: &[Event]) -> bool
    ensures { result ≡ is_lt (set_cmp params.now a.now b.now) }
{
    a.len().cmp(&b.len()).then(list_order(params, a, b)).is_lt()
}

/// The list of the same events.
pub fn listed(alloc: Global, events: &[Event]) -> Result<Events, Memory>
    ensures { IfOk result (λ list. list ≡ events.now) }
{
    let mut list = Events::new(alloc);
    for event in events {
        list.push(*event)?;
    }
    Ok(list)
}
