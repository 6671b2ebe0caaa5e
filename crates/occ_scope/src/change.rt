ghost use Rattle.std.specs.Prelude.{ℕ, ◌≡◌, ◌<◌, ◌^◌, ◌&&◌, Bool, true, IfOk};
ghost use Rattle.std.specs.List.{filter};
ghost use Rattle.occ_node.specs.occ_accept.Accept.{in_some, refuses};
ghost use Rattle.occ_node.specs.occ_base.declared.event.Event.{Event};
ghost use Rattle.occ_node.specs.occ_dd.Store.{IsKnown, IsSet, Keeps, has};
ghost use Rattle.occ_node.specs.World.{IsNode, row_of};
ghost use Rattle.occ_scope.specs.Change.{stays, ends_after, number_of};

use crate::bits::{free, turn};
use occ_node::{Antichain, Event, Memory, Name, NodeId, SetId, Store, World, without};
use std::alloc::Global;

/// What is done to a node's behaviours.
#[derive(Clone, Copy, Debug)]
pub enum Change {
    /// Those that have an event of the channel are left out.
    Restrict(Name),
    /// These bits take every value in final states.
    Forget(u64),
    /// These bits are turned in final states.
    Shift(u64),
}

/// The number of a change among those of its kind.
pub fn number(change: Change) -> usize
    ensures { result ≡ number_of change }
{
    match change {
        Change::Restrict(chan) => chan.0,
        Change::Forget(bits) | Change::Shift(bits) => bits as usize,
    }
}

// Whether an event stays.
fn stays(change: Change, event: Event) -> bool
    ensures { result ≡ stays change event }
{
    match change {
        Change::Restrict(chan) => event.chan != chan,
        Change::Forget(_) | Change::Shift(_) => true,
    }
}

/// The offers of a node that stay.
pub fn open_offers(
    alloc: Global,
    world: &World,
    change: Change,
    node: NodeId,
) -> Result<Vec<(Event, NodeId)>, Memory>
    requires { IsNode world.now node }
    ensures { IfOk result (λ r. r.items ≡ filter (λ o. stays change o.0) (row_of world.now node).offers) }
{
    let mut offers = Vec::from_slice(alloc, world.row(node).offers.items())?;
    offers.retain(|offer| stays(change, offer.0));
    Ok(offers)
}

/// The acceptances afterwards.
pub fn open_sets(alloc: Global, change: Change, sets: &Antichain) -> Result<Antichain, Memory>
    ensures refuses { IfOk result (λ r. (X : Event → Bool) → refuses r X ≡ refuses sets.now (λ e. stays change e && X e)) }
    ensures events { IfOk result (λ r. (e : Event) → in_some r e ≡ true → (stays change e && in_some sets.now e) ≡ true) }
{
    match change {
        Change::Restrict(chan) => without(alloc, sets, chan),
        Change::Forget(_) | Change::Shift(_) => sets.copy(alloc),
    }
}

/// The final states afterwards.
pub fn change_ends(store: &mut Store, change: Change, set: SetId) -> Result<SetId, Memory>
    requires { IsKnown store.old set }
    ensures keeps { Keeps store.old store.new }
    ensures after { IfOk result (λ r. IsSet store.new r (ends_after change (has store.old set))) }
{
    match change {
        Change::Restrict(_) => Ok(set),
        Change::Forget(bits) => free(store, set, bits),
        Change::Shift(bits) => turn(store, set, bits),
    }
}
