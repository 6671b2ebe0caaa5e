ghost use Rattle.std.specs.Prelude.{◌≡◌, ◌≤◌, MatchOption};
ghost use Rattle.occ_syntax.specs.Counts.{bits_of_scope};
ghost use Rattle.occ_norm.specs.occ_dd.Store.{IsKnown};
ghost use Rattle.occ_refine.specs.Rows.{is_extra, IsLeastExtra, NoExtra};

use occ_norm::{SetId, Store, assignment, last_number};
use occ_syntax::{Kind, Name};

// Whether the one set has an assignment that the other hasn't.
fn is_extra(store: &Store, own: SetId, other: SetId, bits: u64) -> bool
    requires own { IsKnown store.now own }
    requires other { IsKnown store.now other }
    ensures { result ≡ is_extra store.now own other bits }
{
    let there = store.has(other, bits);
    if store.has(own, bits) { !there } else { false }
}

/// The assignment of the least state that the one set has and the other hasn't.
pub fn least_extra(store: &Store, params: &[(Name, Kind)], own: SetId, other: SetId) -> Option<u64>
    requires few { bits_of_scope params.now ≤ 64 }
    requires own { IsKnown store.now own }
    requires other { IsKnown store.now other }
    ensures { MatchOption result (NoExtra store.now params.now own other) (IsLeastExtra store.now params.now own other) }
{
    if own == other {
        return None;
    }
    let last = last_number(params);
    let mut number: u64 = 0;
    'states: loop {
        let bits = assignment(params, number);
        if is_extra(store, own, other, bits) {
            return Some(bits);
        }
        if number == last {
            return None;
        }
        number += 1;
    }
}
