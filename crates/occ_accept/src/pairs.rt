ghost use Rattle.std.specs.Prelude.{◌≡◌, true, Bool, ◌||◌, ◌&&◌, IfOk, OnOk};
ghost use Rattle.std.specs.List.{list_any};
ghost use Rattle.occ_base.specs.declared.event.Event.{Event};
ghost use Rattle.occ_accept.specs.Accept.{IsAntichain, in_some, in_set, refuses, refuses_both, misses, is_unmatched};

use crate::antichain::add;
use crate::{AcceptSet, Antichain};
use occ_base::Memory;
use std::alloc::Global;

// Adds the union of two sets, unless the one holds the counterpart of an event of the other.
fn add_union(
    alloc: Global,
    sets: &mut Vec<AcceptSet>,
    a: &AcceptSet,
    b: &AcceptSet,
) -> Result<(), Memory>
    requires { IsAntichain sets.old.items }
    ensures chain { OnOk result (IsAntichain sets.new.items) }
    ensures refuses { OnOk result ((X : Event → Bool) → refuses sets.new.items X ≡ (refuses sets.old.items X
        || (is_unmatched a.now b.now && (misses X a.now && misses X b.now)))) }
    ensures events { OnOk result ((e : Event) → in_some sets.new.items e ≡ true
        → (in_some sets.old.items e || (in_set a.now e || in_set b.now e)) ≡ true) }
{
    if !a.is_unmatched(b) {
        return Ok(());
    }
    add(sets, a.union(alloc, b)?)?;
    Ok(())
}

// Adds the unions of a set with those of the others that hold no counterpart of its events.
fn add_unions(
    alloc: Global,
    sets: &mut Vec<AcceptSet>,
    a: &AcceptSet,
    others: &[AcceptSet],
) -> Result<(), Memory>
    requires { IsAntichain sets.old.items }
    ensures chain { OnOk result (IsAntichain sets.new.items) }
    ensures refuses { OnOk result ((X : Event → Bool) → refuses sets.new.items X ≡ (refuses sets.old.items X
        || list_any (λ b. is_unmatched a.now b && (misses X a.now && misses X b)) others.now)) }
    ensures events { OnOk result ((e : Event) → in_some sets.new.items e ≡ true
        → (in_some sets.old.items e || (in_set a.now e || in_some others.now e)) ≡ true) }
{
    for b in others {
        add_union(alloc, sets, a, b)?;
    }
    Ok(())
}

/// The least of the unions of pairs in which no event of the one has its counterpart in the other: what
/// two processes can refuse that have to agree on nothing.
pub fn cross(alloc: Global, a: &Antichain, b: &Antichain) -> Result<Antichain, Memory>
    ensures refuses { IfOk result (λ r. (X : Event → Bool) → refuses r X ≡ refuses_both a.now b.now X) }
    ensures events { IfOk result (λ r. (e : Event) → in_some r e ≡ true → (in_some a.now e || in_some b.now e) ≡ true) }
{
    let others = b.items();
    let mut sets = Vec::new(alloc);
    for set in a.items() {
        add_unions(alloc, &mut sets, set, others)?;
    }
    Ok(Antichain::from_sets(sets))
}
