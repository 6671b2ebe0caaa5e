ghost use Rattle.std.specs.Prelude.{◌≡◌, IfOk};
ghost use Rattle.occ_follow.specs.Sequence.{HasNodes};
ghost use Rattle.occ_norm_frame.specs.Alone.{IsEnding, except};
ghost use Rattle.occ_norm_frame.specs.Maps.{Extends};

use crate::{Normaliser, rebased};
use occ_syntax::Memory;
use occ_weave::MapId;

/// Some bits without others.
pub fn except(bits: u64, others: u64) -> u64
    ensures { result ≡ except bits others }
{
    bits ^ (bits & others)
}

/// The map whose node at every state has ended. Of the bits of `all`, its ends have those of `keep` as changes, so 0, and the
/// others as they are in the state.
pub fn ending(world: &mut Normaliser, all: u64, keep: u64) -> Result<MapId, Memory>
    ensures extends { Extends world.old world.new }
    ensures nodes { IfOk result (HasNodes world.new) }
    ensures ending { IfOk result (IsEnding world.new all keep) }
{
    let ended = world.skip(all)?;
    let values = except(all, keep);
    let ending = rebased(world, values, ended)?;
    Ok(ending)
}
