ghost use Rattle.std.specs.Prelude.{◌≡◌, ◌≤◌, MatchOption};
ghost use Rattle.occ_syntax.specs.Counts.{bits_of_scope};
ghost use Rattle.occ_bits.specs.occ_dd.Store.{IsKnown};
ghost use Rattle.occ_node.specs.occ_mdd.Maps.{IsKnown as IsMapKnown};
ghost use Rattle.occ_compare.specs.Steps.{Tells, IsSide, IsLeastStart, SameStarts, same_node};
ghost use Rattle.occ_compare.specs.Walk.{SameEnds};

use crate::places::{assignment, last_number};
use occ_behaviour::Side;
use occ_bits::{SetId, Store};
use occ_node::{MapId, NodeId, World};
use occ_syntax::{Kind, Name};

// An assignment that only one of two sets has, and whose it is.
#[derive(Clone, Copy)]
pub(crate) struct End {
    pub bits: u64,
    pub only: Side,
}

// The side that alone has something.
fn side(a: bool, b: bool) -> Option<Side>
    ensures { MatchOption result (a ≡ b) (IsSide a b) }
{
    match (a, b) {
        (true, false) => Some(Side::First),
        (false, true) => Some(Side::Second),
        _ => None,
    }
}

// The least end of the interface that only one of two sets has.
pub(crate) fn least_end(store: &Store, params: &[(Name, Kind)], a: SetId, b: SetId) -> Option<End>
    requires few { bits_of_scope params.now ≤ 64 }
    requires first { IsKnown store.now a }
    requires second { IsKnown store.now b }
    ensures { MatchOption result (SameEnds store.now params.now a b) (Tells store.now params.now a b) }
{
    if a == b {
        return None;
    }
    let last = last_number(params);
    let mut number: u64 = 0;
    loop {
        let bits = assignment(params, number);
        if let Some(only) = side(store.has(a, bits), store.has(b, bits)) {
            return Some(End { bits, only });
        }
        if number == last {
            return None;
        }
        number += 1;
    }
}

// Whether two nodes are the same, where there are any.
pub(crate) fn same_node(a: Option<NodeId>, b: Option<NodeId>) -> bool
    ensures { result ≡ same_node a b }
{
    match (a, b) {
        (None, None) => true,
        (Some(a), Some(b)) => a.0 == b.0,
        _ => false,
    }
}

// The assignment of the least state at which two maps differ.
pub(crate) fn least_start(world: &World, params: &[(Name, Kind)], a: MapId, b: MapId) -> Option<u64>
    requires few { bits_of_scope params.now ≤ 64 }
    requires first { IsMapKnown world.now.maps a }
    requires second { IsMapKnown world.now.maps b }
    ensures { MatchOption result (SameStarts world.now params.now a b) (IsLeastStart world.now params.now a b) }
{
    let last = last_number(params);
    let mut number: u64 = 0;
    loop {
        let bits = assignment(params, number);
        if !same_node(world.maps.get(a, bits), world.maps.get(b, bits)) {
            return Some(bits);
        }
        if number == last {
            return None;
        }
        number += 1;
    }
}
