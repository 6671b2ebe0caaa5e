//! What any law of the table makes of a part at a place.

ghost use Rattle.std.specs.Prelude.{◌≡◌, IfOk, true};
ghost use Rattle.occ_law_alt.specs.occ_law.Instances.{IsInstance};
ghost use Rattle.occ_syntax.specs.Scopes.{environment};
ghost use Rattle.occ_syntax.specs.Types.{scope_kept};
ghost use Rattle.occ_syntax.specs.Usage.{Keeps};
ghost use Rattle.occ_syntax.specs.View.{tree};

use occ_law_alt::{Family, LawId, Place, Store};
use occ_syntax::{Memory, Proc, Scope};
use std::alloc::Global;

/// What a law makes of a part at a place, where it holds there: the right side whose left side is the part. None exactly where
/// the law holds at no such place, and for laws whose left side doesn't tell the right one. The part keeps names, types,
/// directions and usage in the scope. The store serves the questions that some laws ask of conditions.
pub fn right(
    alloc: Global,
    store: &mut Store,
    law: LawId,
    scope: &Scope,
    left: &Proc,
    place: Place,
) -> Result<Option<Proc>, Memory>
    requires scope { scope_kept scope.now ≡ true }
    requires left { Keeps (environment scope.now) (tree left.now) }
    ensures { IfOk result (IsInstance law.0 scope.now (tree left.now) place) }
{
    let Some(known) = law.law() else {
        return Ok(None);
    };
    match known.family() {
        Family::Seq => occ_law_right::sequence_right(alloc, law, scope, left, place),
        Family::If => occ_law_if::right(alloc, store, law, scope, left, place),
        Family::Alt => occ_law_alt::right(alloc, store, law, scope, left, place),
        Family::Par => occ_law_par::right(alloc, store, law, scope, left, place),
        Family::Scope => occ_law_right::scope_right(alloc, law, scope, left, place),
    }
}
