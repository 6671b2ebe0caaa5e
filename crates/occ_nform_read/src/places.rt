ghost use Rattle.std.specs.Prelude.{◌≡◌, ◌≤◌, length, map, IfOk};
ghost use Rattle.occ_syntax.specs.Counts.{bits_of_scope};
ghost use Rattle.occ_nform_table.specs.Lines.{rank, state_place};

use occ_nform_table::{rank, state_place};
use occ_syntax::{Event, Kind, List, Memory, Name, State};
use std::alloc::Global;

/// Places in an order, as those of states, or of the events of a set.
pub type Places = List<u64>;

/// The ranks of events, in the order in which these are given.
pub fn ranks(alloc: Global, params: &[(Name, Kind)], events: &[Event]) -> Result<Places, Memory>
    requires { length params.now ≤ 16 }
    ensures { IfOk result (λ ranks. ranks ≡ map (rank params.now) events.now) }
{
    let mut ranks = Places::new(alloc);
    for event in events {
        ranks.push(rank(params, *event))?;
    }
    Ok(ranks)
}

/// The places of states, in the order in which these are given.
pub fn state_places(
    alloc: Global,
    params: &[(Name, Kind)],
    states: &[State],
) -> Result<Places, Memory>
    requires bits { bits_of_scope params.now ≤ 16 }
    requires few { length params.now ≤ 16 }
    ensures { IfOk result (λ places. places ≡ map (state_place params.now) states.now) }
{
    let mut places = Places::new(alloc);
    for state in states {
        places.push(state_place(params, state.items()))?;
    }
    Ok(places)
}
