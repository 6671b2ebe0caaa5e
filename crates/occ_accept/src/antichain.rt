ghost use Rattle.std.specs.Prelude.{◌≡◌, ℕ, true, Bool, List, [], ◌&&◌, ◌||◌, not, IfOk, OnOk};
ghost use Rattle.std.specs.List.{list_any, prefix_len};
ghost use Rattle.std.specs.Ordering.{is_lt};
ghost use Rattle.std.specs.Cmp.Lexicographic.{slice_cmp, pointwise, lists_per, lists_equiv};
ghost use Rattle.occ_base.specs.declared.event.Event.{Event};
ghost use Rattle.occ_accept.specs.Order.{event_cmp};
ghost use Rattle.occ_accept.specs.Accept.{IsAntichain, in_some, is_on, is_part, misses, in_set, refuses};

use crate::AcceptSet;
use occ_base::{Memory, Name};
use std::alloc::Global;
use std::hash::{Hash, Hasher};
use std::marker::Model;

/// The least acceptances of a process: a strictly increasing list of sets, none of which contains
/// another. All of a set X can be refused exactly where some of them holds no event of X.
#[derive(Debug, Drop)]
pub struct Antichain {
    sets: Vec<AcceptSet>,
}

impl Model for Antichain {
    ghost use Rattle.std.specs.Prelude.{List};
    ghost use Rattle.occ_base.specs.declared.event.Event.{Event};
    ghost use Rattle.occ_accept.specs.Accept.{IsAntichain};

    ghost Value = { List (List Event) };

    ghost view = { λ chain. chain.sets.items };

    ghost invariant = { λ chain. IsAntichain chain.sets.items };
}

impl Antichain {
    /// The sets in order. It takes no memory.
    pub fn items(&self) -> &[AcceptSet]
        ensures items { result.now ≡ self.now }
        ensures antichain { IsAntichain self.now }
    {
        self.sets.as_slice()
    }

    // The antichain of these sets.
    pub(crate) fn from_sets(sets: Vec<AcceptSet>) -> Antichain
        requires { IsAntichain sets.items }
        ensures { result ≡ sets.items }
    {
        Antichain { sets }
    }

    /// The antichain of the same sets.
    pub fn copy(&self, alloc: Global) -> Result<Antichain, Memory>
        ensures { IfOk result (λ r. r ≡ self.now) }
    {
        let mut sets = Vec::with_capacity(alloc, self.sets.len())?;
        for set in self.items() {
            sets.push(set.copy(alloc)?)?;
        }
        Ok(Antichain { sets })
    }
}

// The place of a set among increasing sets: behind all that go before it.
fn place(sets: &[AcceptSet], set: &AcceptSet) -> usize
    ensures { result ≡ prefix_len (λ kept. is_lt (slice_cmp event_cmp kept set.now)) sets.now }
{
    let mut place = 0;
    while place < sets.len() && sets[place].goes_before(set) {
        place += 1;
    }
    place
}

// Whether some set is a part of this one.
fn has_part(sets: &[AcceptSet], set: &AcceptSet) -> bool
    ensures { result ≡ list_any (λ kept. is_part kept set.now) sets.now }
{
    sets.iter().any(|kept| kept.is_part(set))
}

// Adds a set to an antichain: nothing where a part of it is there, and else it takes the place of the
// sets that contain it. Where memory runs out, sets may be lost.
pub(crate) fn add(sets: &mut Vec<AcceptSet>, set: AcceptSet) -> Result<(), Memory>
    requires { IsAntichain sets.old.items }
    ensures chain { OnOk result (IsAntichain sets.new.items) }
    ensures refuses { OnOk result ((X : Event → Bool) → refuses sets.new.items X ≡ (refuses sets.old.items X || misses X set)) }
    ensures events { OnOk result ((e : Event) → in_some sets.new.items e ≡ true → (in_some sets.old.items e || in_set set e) ≡ true) }
{
    if has_part(sets, &set) {
        return Ok(());
    }
    sets.retain(|kept| !set.is_part(kept));
    let place = place(sets, &set);
    sets.insert(place, set)?;
    Ok(())
}

// Adds all of some sets.
fn add_all(alloc: Global, sets: &mut Vec<AcceptSet>, more: &[AcceptSet]) -> Result<(), Memory>
    requires { IsAntichain sets.old.items }
    ensures chain { OnOk result (IsAntichain sets.new.items) }
    ensures refuses { OnOk result ((X : Event → Bool) → refuses sets.new.items X ≡ (refuses sets.old.items X || refuses more.now X)) }
    ensures events { OnOk result ((e : Event) → in_some sets.new.items e ≡ true → (in_some sets.old.items e || in_some more.now e) ≡ true) }
{
    for set in more {
        add(sets, set.copy(alloc)?)?;
    }
    Ok(())
}

/// The least of some sets: those that contain no other.
pub fn least(alloc: Global, sets: &[AcceptSet]) -> Result<Antichain, Memory>
    ensures refuses { IfOk result (λ r. (X : Event → Bool) → refuses r X ≡ refuses sets.now X) }
    ensures events { IfOk result (λ r. (e : Event) → in_some r e ≡ true → in_some sets.now e ≡ true) }
{
    let mut chain = Vec::new(alloc);
    add_all(alloc, &mut chain, sets)?;
    Ok(Antichain { sets: chain })
}

/// The least sets of two antichains together: what either refuses.
pub fn join(alloc: Global, a: &Antichain, b: &Antichain) -> Result<Antichain, Memory>
    ensures refuses { IfOk result (λ r. (X : Event → Bool) → refuses r X ≡ (refuses a.now X || refuses b.now X)) }
    ensures events { IfOk result (λ r. (e : Event) → in_some r e ≡ true → (in_some a.now e || in_some b.now e) ≡ true) }
{
    let mut chain = Vec::new(alloc);
    add_all(alloc, &mut chain, a.items())?;
    add_all(alloc, &mut chain, b.items())?;
    Ok(Antichain { sets: chain })
}

/// The least of the sets that are left when the events of a channel are taken out of each.
pub fn without(alloc: Global, a: &Antichain, chan: Name) -> Result<Antichain, Memory>
    ensures refuses { IfOk result (λ r. (X : Event → Bool) → refuses r X ≡ refuses a.now (λ e. X e && not (is_on chan e))) }
    ensures events { IfOk result (λ r. (e : Event) → in_some r e ≡ true → (in_some a.now e && not (is_on chan e)) ≡ true) }
{
    let mut chain = Vec::new(alloc);
    for set in a.items() {
        add(&mut chain, set.without(alloc, chan)?)?;
    }
    Ok(Antichain { sets: chain })
}
