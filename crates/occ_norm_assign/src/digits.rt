ghost use Rattle.std.specs.Prelude.{IfOk};
ghost use Rattle.occ_norm_frame.specs.occ_dd.Store.{IsKnown};
ghost use Rattle.occ_norm_frame.specs.occ_bits.Digits.{AreDigits, IsComposed, IsEither, IsIdentity, KeepComposed};
ghost use Rattle.occ_norm_frame.specs.Maps.{Extends};

use occ_norm_frame::{Memo, Normaliser, SetId};
use occ_syntax::Memory;

/// The digits of a state that stays as it is.
pub(crate) fn identity(world: &mut Normaliser) -> Result<Vec<SetId>, Memory>
    ensures extends { Extends world.old world.new }
    ensures identity { IfOk result (λ r. IsIdentity world.new.store r.items) }
{
    let alloc = world.alloc();
    occ_norm_frame::identity(alloc, &mut world.lifting.weaver.world.store)
}

/// The assignments from which digits lead into a set.
pub(crate) fn leading(
    world: &mut Normaliser,
    digits: &[SetId],
    set: SetId,
    memo: &mut Memo,
) -> Result<SetId, Memory>
    requires digits { AreDigits world.old.store digits.now }
    requires set { IsKnown world.old.store set }
    requires memo { KeepComposed world.old.store digits.now memo.old }
    ensures extends { Extends world.old world.new }
    ensures memo { KeepComposed world.new.store digits.now memo.new }
    ensures composed { IfOk result (IsComposed world.new.store digits.now 64 set) }
{
    occ_norm_frame::leading(&mut world.lifting.weaver.world.store, digits, set, memo)
}

/// The digits that lead where the one list leads from members of a set, and where the other leads from others.
pub(crate) fn either(
    world: &mut Normaliser,
    set: SetId,
    yes: &[SetId],
    no: &[SetId],
) -> Result<Vec<SetId>, Memory>
    requires set { IsKnown world.old.store set }
    requires yes { AreDigits world.old.store yes.now }
    requires no { AreDigits world.old.store no.now }
    ensures extends { Extends world.old world.new }
    ensures either { IfOk result (λ r. IsEither world.new.store set yes.now no.now r.items) }
{
    let alloc = world.alloc();
    occ_norm_frame::either(alloc, &mut world.lifting.weaver.world.store, set, yes, no)
}
