ghost use Rattle.std.specs.Prelude.{◌≡◌, ◌≤◌, IfOk, true};
ghost use Rattle.occ_syntax.specs.Scopes.{environment};
ghost use Rattle.occ_syntax.specs.Types.{scope_kept};
ghost use Rattle.occ_syntax.specs.Usage.{Keeps};
ghost use Rattle.occ_syntax.specs.View.{tree};
ghost use Rattle.occ_law_shape.specs.occ_law.Instances.{IsInstance};

use crate::placed::{par_flat, par_skip};
use crate::right_expand::par_expand;
use crate::whole::{par_assign, par_if, par_none, par_one, par_stop};
use occ_law_shape::{Law, LawId, LawPlace as Place, Store};
use occ_syntax::{Memory, Proc, Scope};
use std::alloc::Global;

/// What a law of PAR, from par-none to par-expand, makes of a part at a place, where it holds there: the right side whose left
/// side is the part. None exactly where the law holds at no such place. The part keeps names, types, directions and usage in
/// the scope. The place of par-flat and par-skip is behind so many parts, and that of the others the whole part; par-order has
/// no result of its own. The store holds the diagrams of the question that par-if asks about the states of the scope; it may
/// serve any number of calls. Over 24 bits par-if's answer is None.
pub fn right(
    alloc: Global,
    store: &mut Store,
    law: LawId,
    scope: &Scope,
    left: &Proc,
    place: Place,
) -> Result<Option<Proc>, Memory>
    requires first { 37 ≤ law.0 }
    requires last { law.0 ≤ 45 }
    requires scope { scope_kept scope.now ≡ true }
    requires left { Keeps (environment scope.now) (tree left.now) }
    ensures { IfOk result (IsInstance law.0 scope.now (tree left.now) place) }
{
    match law.law() {
        Some(Law::ParNone) => Ok(par_none(left, place)),
        Some(Law::ParOne) => par_one(alloc, left, place),
        Some(Law::ParFlat) => par_flat(alloc, left, place),
        Some(Law::ParOrder) => Ok(None),
        Some(Law::ParSkip) => par_skip(alloc, left, place),
        Some(Law::ParStop) => par_stop(alloc, left, place),
        Some(Law::ParAssign) => par_assign(alloc, left, place),
        Some(Law::ParIf) => par_if(alloc, store, scope, left, place),
        Some(Law::ParExpand) => par_expand(alloc, left, place),
        _ => Ok(None),
    }
}
