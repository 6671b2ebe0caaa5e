ghost use Rattle.std.specs.Prelude.{◌≡◌, ◌≤◌, IfOk, true};
ghost use Rattle.occ_syntax.specs.Scopes.{environment};
ghost use Rattle.occ_syntax.specs.Types.{scope_kept};
ghost use Rattle.occ_syntax.specs.Usage.{Keeps};
ghost use Rattle.occ_syntax.specs.View.{tree};
ghost use Rattle.occ_law_shape.specs.occ_law.Instances.{IsInstance};

use crate::right_placed::{if_cut, if_else_stop, if_false, if_merge, if_nest, if_swap};
use crate::whole::{if_none, if_true};
use occ_law_shape::{Law, LawId, LawPlace as Place, Store};
use occ_syntax::{Memory, Proc, Scope};
use std::alloc::Global;

/// What a law of IF, from if-none to if-under, makes of a part at a place, where it holds there: the right side whose left side
/// is the part. None exactly where the law holds at no such place. The part keeps names, types, directions and usage in the
/// scope. The place of if-none and if-true is the whole part, and that of the others is behind so many choices; if-copy and
/// if-under have no result of their own. The store holds the diagrams of the questions that if-false, if-true, if-cut and
/// if-swap ask about the states of the scope; it may serve any number of calls. Over 24 bits the answer is None.
pub fn right(
    alloc: Global,
    store: &mut Store,
    law: LawId,
    scope: &Scope,
    left: &Proc,
    place: Place,
) -> Result<Option<Proc>, Memory>
    requires first { 16 ≤ law.0 }
    requires last { law.0 ≤ 25 }
    requires scope { scope_kept scope.now ≡ true }
    requires left { Keeps (environment scope.now) (tree left.now) }
    ensures { IfOk result (IsInstance law.0 scope.now (tree left.now) place) }
{
    match law.law() {
        Some(Law::IfNone) => Ok(if_none(left, place)),
        Some(Law::IfFalse) => if_false(alloc, store, scope, left, place),
        Some(Law::IfTrue) => if_true(alloc, store, scope, left, place),
        Some(Law::IfElseStop) => if_else_stop(alloc, left, place),
        Some(Law::IfCut) => if_cut(alloc, store, scope, left, place),
        Some(Law::IfNest) => if_nest(alloc, left, place),
        Some(Law::IfSwap) => if_swap(alloc, store, scope, left, place),
        Some(Law::IfMerge) => if_merge(alloc, left, place),
        _ => Ok(None),
    }
}
