ghost use Rattle.std.specs.Prelude.{◌≡◌, ◌==◌, ℕ, ◌<◌, ◌&&◌, if◌then◌else◌, not, true, IfOk};
ghost use Rattle.std.specs.Int.{bit_at};
ghost use Rattle.occ_bits.specs.occ_dd.Store.{IsKnown, IsSet, Keeps, has};
ghost use Rattle.occ_bits.specs.occ_dd.Assignment.{turned};
ghost use Rattle.occ_norm_frame.specs.Maps.{Extends};

use crate::Normaliser;
use occ_bits::{SetId, Store};
use occ_syntax::Memory;

fn minus(store: &mut Store, set: SetId, other: SetId) -> Result<SetId, Memory>
    requires set { IsKnown store.old set }
    requires other { IsKnown store.old other }
    ensures keeps { Keeps store.old store.new }
    ensures set { IfOk result (λ r. IsSet store.new r (λ x. has store.old set x && not (has store.old other x))) }
{
    let outside = store.not(other)?;
    store.and(set, outside)
}

fn turned(store: &mut Store, set: SetId, bit: u32) -> Result<SetId, Memory>
    requires set { IsKnown store.old set }
    requires bit { bit < 64 }
    ensures keeps { Keeps store.old store.new }
    ensures set { IfOk result (λ r. IsSet store.new r (λ x. if has store.old set x then not (bit_at x bit == 1) else bit_at x bit == 1)) }
{
    let was_one = store.bit(bit)?;
    let was_zero = store.not(was_one)?;
    store.ite(set, was_zero, was_one)
}

impl Normaliser {
    /// Whether a state is in a set. It takes no memory.
    pub fn has(&self, set: SetId, state: u64) -> bool
        requires { IsKnown self.now.store set }
        ensures { result ≡ has self.now.store set state }
    {
        self.lifting.weaver.world.store.has(set, state)
    }

    /// The states of a set that are in another one.
    pub fn within(&mut self, set: SetId, other: SetId) -> Result<SetId, Memory>
        requires set { IsKnown self.old.store set }
        requires other { IsKnown self.old.store other }
        ensures extends { Extends self.old self.new }
        ensures set { IfOk result (λ r. IsSet self.new.store r (λ x. has self.old.store set x && has self.old.store other x)) }
    {
        self.lifting.weaver.world.store.and(set, other)
    }

    /// The states of a set that are not in another one.
    pub fn without(&mut self, set: SetId, other: SetId) -> Result<SetId, Memory>
        requires set { IsKnown self.old.store set }
        requires other { IsKnown self.old.store other }
        ensures extends { Extends self.old self.new }
        ensures set { IfOk result (λ r. IsSet self.new.store r (λ x. has self.old.store set x && not (has self.old.store other x))) }
    {
        minus(&mut self.lifting.weaver.world.store, set, other)
    }

    /// The states in which a bit changes that becomes 1 on a set and 0 elsewhere.
    pub fn changed(&mut self, set: SetId, bit: u32) -> Result<SetId, Memory>
        requires set { IsKnown self.old.store set }
        requires bit { bit < 64 }
        ensures extends { Extends self.old self.new }
        ensures set { IfOk result (λ r. IsSet self.new.store r (λ x. if has self.old.store set x then not (bit_at x bit == 1) else bit_at x bit == 1)) }
    {
        turned(&mut self.lifting.weaver.world.store, set, bit)
    }

    /// Whether a set has the same states whatever a bit is.
    pub fn is_free(&mut self, set: SetId, bit: u32) -> Result<bool, Memory>
        requires set { IsKnown self.old.store set }
        requires bit { bit < 64 }
        ensures extends { Extends self.old self.new }
        ensures free { IfOk result (λ answer. answer ≡ true → (x : ℕ) → has self.old.store set (turned x bit) ≡ has self.old.store set x) }
    {
        let turned = self.lifting.weaver.world.store.flip(set, bit)?;
        Ok(turned.0 == set.0)
    }
}
