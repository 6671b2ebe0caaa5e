ghost use Rattle.std.specs.Prelude.{◌≡◌, ◌≤◌, IfOk, true};
ghost use Rattle.occ_syntax.specs.Scopes.{environment};
ghost use Rattle.occ_syntax.specs.Types.{scope_kept};
ghost use Rattle.occ_syntax.specs.Usage.{Keeps};
ghost use Rattle.occ_syntax.specs.View.{tree};
ghost use Rattle.occ_law_shape.specs.occ_law.Instances.{IsInstance};

use crate::between::{alt_same, alt_twice};
use crate::right_placed::{alt_case, alt_false, alt_flat, alt_slide, alt_split};
use crate::whole::{alt_least, alt_none, alt_skip};
use occ_law_shape::{Law, LawId, LawPlace as Place, Store};
use occ_syntax::{Memory, Proc, Scope};
use std::alloc::Global;

/// What a law of ALT, from alt-none to alt-least, makes of a part at a place, where it holds there: the right side whose left
/// side is the part. None exactly where the law holds at no such place; of alt-order a part tells no right side, so there is
/// none. The part keeps names, types, directions and usage in the scope. The store is where alt-false compares states. The error
/// is out of memory.
pub fn right(
    alloc: Global,
    store: &mut Store,
    law: LawId,
    scope: &Scope,
    left: &Proc,
    place: Place,
) -> Result<Option<Proc>, Memory>
    requires first { 26 ≤ law.0 }
    requires last { law.0 ≤ 36 }
    requires scope { scope_kept scope.now ≡ true }
    requires left { Keeps (environment scope.now) (tree left.now) }
    ensures { IfOk result (IsInstance law.0 scope.now (tree left.now) place) }
{
    match law.law() {
        Some(Law::AltNone) => alt_none(left, place),
        Some(Law::AltOrder) => Ok(None),
        Some(Law::AltFalse) => alt_false(alloc, store, scope, left, place),
        Some(Law::AltTwice) => alt_twice(alloc, left, place),
        Some(Law::AltSkip) => alt_skip(alloc, left, place),
        Some(Law::AltCase) => alt_case(alloc, left, place),
        Some(Law::AltFlat) => alt_flat(alloc, left, place),
        Some(Law::AltSplit) => alt_split(alloc, left, place),
        Some(Law::AltSame) => alt_same(alloc, left, place),
        Some(Law::AltSlide) => alt_slide(alloc, left, place),
        Some(Law::AltLeast) => alt_least(alloc, left, place),
        _ => Ok(None),
    }
}
