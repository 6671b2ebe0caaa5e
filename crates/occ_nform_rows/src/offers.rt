ghost use Rattle.std.specs.Prelude.{◌≡◌, ◌<◌, ◌++◌, [], true, length, MatchOption, OnOk, IfOk};
ghost use Rattle.occ_compare.specs.occ_accept.Order.{strict};
ghost use Rattle.occ_nform_rows.specs.Lists.{AreOffers, with_number};
ghost use Rattle.occ_compare.specs.occ_node.Offers.{are_below, offer_cmp};

use occ_compare::{NodeId, Offers, in_order};
use occ_nform_table::TableOffers;
use occ_syntax::{Event, Kind, Memory, Name};
use std::alloc::Global;

// Adds an event with the number of the node that is offered there, where one is.
fn add_offer(
    list: &mut TableOffers,
    event: Event,
    next: Option<NodeId>,
    numbers: &[u32],
) -> Result<(), Memory>
    requires { MatchOption next (Unit {0}) (λ b. b.0 < length numbers.now) }
    ensures { OnOk result (list.new ≡ list.old ++ with_number numbers.now event next []) }
{
    if let Some(node) = next {
        list.push((event, numbers[node.0]))?;
    }
    Ok(())
}

// The offers in the order of their events, each with the number of its node.
pub(crate) fn listed_offers(
    alloc: Global,
    params: &[(Name, Kind)],
    numbers: &[u32],
    offers: &Offers,
) -> Result<TableOffers, Memory>
    requires increasing { strict offer_cmp offers.now ≡ true }
    requires numbered { are_below (length numbers.now) offers.now ≡ true }
    ensures { IfOk result (AreOffers params.now numbers.now offers.now) }
{
    let set = offers.events(alloc)?;
    let events = Vec::from_slice(alloc, set.items())?;
    let events = in_order(params, events);
    let mut list = TableOffers::new(alloc);
    for event in events.as_slice() {
        let next = offers.find(*event);
        add_offer(&mut list, *event, next, numbers)?;
    }
    Ok(list)
}
