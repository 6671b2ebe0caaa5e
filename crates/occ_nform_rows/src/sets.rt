ghost use Rattle.std.specs.Prelude.{◌≡◌, IfOk};
ghost use Rattle.occ_compare.specs.occ_accept.Accept.{IsAntichain};
ghost use Rattle.occ_compare.specs.Orders.{IsListOf};
ghost use Rattle.occ_nform_rows.specs.Lists.{AreLists, AreSets, IsInOrder};

use occ_compare::{AcceptSet, in_order, list_order, listed};
use occ_nform_table::EventSets;
use occ_syntax::{Events, Kind, Memory, Name};
use std::alloc::Global;

// The events of a set in their order.
fn listed_set(alloc: Global, params: &[(Name, Kind)], set: &AcceptSet) -> Result<Events, Memory>
    ensures { IfOk result (IsListOf params.now set.now) }
{
    let events = Vec::from_slice(alloc, set.items())?;
    let events = in_order(params, events);
    listed(alloc, events.as_slice())
}

// The events of each set in their order.
fn listed_each(
    alloc: Global,
    params: &[(Name, Kind)],
    sets: &[AcceptSet],
) -> Result<Vec<Events>, Memory>
    ensures { IfOk result (λ lists. AreLists params.now sets.now lists.items) }
{
    let mut lists = Vec::new(alloc);
    for set in sets {
        lists.push(listed_set(alloc, params, set)?)?;
    }
    Ok(lists)
}

// Lists of events in their order.
fn sorted(params: &[(Name, Kind)], mut lists: Vec<Events>) -> Vec<Events>
    ensures { IsInOrder params.now lists.items result.items }
{
    lists.sort_unstable_by(|a, b| list_order(params, a.items(), b.items()));
    lists
}

// The list of the same sets.
fn copied(alloc: Global, lists: &[Events]) -> Result<EventSets, Memory>
    ensures { IfOk result (λ sets. sets ≡ lists.now) }
{
    let mut sets = EventSets::new(alloc);
    for list in lists {
        sets.push(list.copy(alloc)?)?;
    }
    Ok(sets)
}

// The sets of an antichain as lists, in the order of the lines of a text.
pub(crate) fn listed_sets(
    alloc: Global,
    params: &[(Name, Kind)],
    sets: &[AcceptSet],
) -> Result<EventSets, Memory>
    requires { IsAntichain sets.now }
    ensures { IfOk result (AreSets params.now sets.now) }
{
    let lists = listed_each(alloc, params, sets)?;
    let lists = sorted(params, lists);
    copied(alloc, lists.as_slice())
}
