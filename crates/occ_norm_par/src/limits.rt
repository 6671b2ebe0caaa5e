ghost use Rattle.std.specs.Prelude.{◌≡◌, ℕ, true, IfOk};
ghost use Rattle.occ_norm_frame.specs.occ_dd.Store.{has};
ghost use Rattle.occ_norm_frame.specs.occ_mdd.Maps.{value};
ghost use Rattle.occ_norm_frame.specs.Maps.{Extends};
ghost use Rattle.occ_syntax.specs.View.{trees};
ghost use Rattle.occ_norm_frame.specs.After.{IsOver};
ghost use Rattle.occ_norm_frame.specs.Placed.{FitAll};
ghost use Rattle.occ_norm_par.specs.States.{AreBetween, AreStates};

use crate::forward::between;
use occ_norm_frame::{Frame, MapId, Normaliser, SetId};
use occ_syntax::{Memory, Proc};

/// The set of all states.
pub fn all_states(world: &Normaliser, frame: &Frame) -> SetId
    ensures states { AreStates world.now.store frame.now.bits result }
    ensures all { (x : ℕ) → has world.now.store result x ≡ true }
{
    world.full()
}

/// States in front of each part of a SEQ that begins in those of a set, and behind the last part.
pub fn states_between(
    world: &mut Normaliser,
    frame: &Frame,
    parts: &[Proc],
    from: SetId,
) -> Result<Vec<SetId>, Memory>
    requires parts { FitAll frame.now.vars (trees parts.now) }
    requires from { AreStates world.old.store frame.now.bits from }
    ensures extends { Extends world.old world.new }
    ensures between { IfOk result (λ r. AreBetween world.new.store frame.now.vars frame.now.layout frame.now.bits from parts.now r.items) }
{
    let alloc = world.alloc();
    let store = &mut world.lifting.weaver.world.store;
    between(alloc, store, frame, parts, from)
}

/// A map in the states of a set, and STOP elsewhere.
pub fn limited(
    world: &mut Normaliser,
    frame: &Frame,
    set: SetId,
    map: MapId,
) -> Result<MapId, Memory>
    requires set { AreStates world.old.store frame.now.bits set }
    requires map { IsOver world.old frame.now.bits map }
    ensures extends { Extends world.old world.new }
    ensures over { IfOk result (IsOver world.new frame.now.bits) }
    ensures same { IfOk result (λ r. (x : ℕ) → has world.old.store set x ≡ true → value world.new.maps r x ≡ value world.old.maps map x) }
{
    if set == world.full() {
        return Ok(map);
    }
    let stopped = world.stop()?;
    world.choose(set, map, stopped)
}
