ghost use Rattle.std.specs.Prelude.{◌≡◌, ℕ, ◌<◌, ◌&&◌, Some, IfOk};
ghost use Rattle.occ_bits.specs.occ_dd.Store.{IsKnown, IsSet, Keeps, has};
ghost use Rattle.occ_follow.specs.Sequence.{HasNodes};
ghost use Rattle.occ_norm_frame.specs.Maps.{Extends, IsSkip, IsStop, are_zero, is_clear};

use crate::Normaliser;
use occ_bits::{SetId, Store};
use occ_syntax::Memory;
use occ_weave::{MapId, Offers, Row, least};

// Those of a set in which a bit is 0, if it is one of some bits.
fn with_zero(store: &mut Store, set: SetId, bits: u64, bit: u32) -> Result<SetId, Memory>
    requires set { IsKnown store.old set }
    requires bit { bit < 64 }
    ensures keeps { Keeps store.old store.new }
    ensures set { IfOk result (λ r. IsSet store.new r (λ x. is_clear bits bit x && has store.old set x)) }
{
    if (bits >> bit) & 1 == 0 {
        return Ok(set);
    }
    let one = store.bit(bit)?;
    let zero = store.not(one)?;
    store.and(zero, set)
}

/// The assignments in which all of some bits are 0.
pub(crate) fn zeros(store: &mut Store, bits: u64) -> Result<SetId, Memory>
    ensures keeps { Keeps store.old store.new }
    ensures zeros { IfOk result (λ r. IsSet store.new r (are_zero 64 bits)) }
{
    let mut zeros = store.full();
    for bit in 0..64 {
        let smaller = with_zero(store, zeros, bits, bit)?;
        zeros = smaller;
    }
    Ok(zeros)
}

impl Normaliser {
    /// The map whose node at every state has ended, in all assignments in which the bits of `keep` are 0.
    pub fn skip(&mut self, keep: u64) -> Result<MapId, Memory>
        ensures extends { Extends self.old self.new }
        ensures skip { IfOk result (IsSkip self.new keep) }
        ensures nodes { IfOk result (HasNodes self.new) }
    {
        let alloc = self.alloc();
        let ends = self.zeros(keep)?;
        let accepts = least(alloc, &[])?;
        let node = self.make(Row {
            ends,
            accepts,
            offers: Offers::new(alloc),
        })?;
        self.constant(Some(node))
    }

    /// The map whose node at every state is stable, offers nothing and never ends.
    pub fn stop(&mut self) -> Result<MapId, Memory>
        ensures extends { Extends self.old self.new }
        ensures stop { IfOk result (IsStop self.new) }
        ensures nodes { IfOk result (HasNodes self.new) }
    {
        let node = self.alt(&[])?;
        self.constant(Some(node))
    }
}
