ghost use Rattle.std.specs.Prelude.{◌≡◌, ◌↔◌, ◌≤◌, IfOk, IsTrue, true};
ghost use Rattle.occ_syntax.specs.Scopes.{environment};
ghost use Rattle.occ_syntax.specs.Types.{scope_kept};
ghost use Rattle.occ_syntax.specs.Usage.{Keeps};
ghost use Rattle.occ_syntax.specs.View.{tree};
ghost use Rattle.occ_law_shape.specs.occ_law.RuleTable.{LAW};

use crate::placed::{if_false, if_merge, if_nest, if_swap};
use crate::simple::{if_copy, if_cut, if_else_stop, if_none, if_true};
use crate::under::if_under;
use occ_law_shape::{Law, LawId, Store};
use occ_syntax::{Memory, Proc, Scope};
use std::alloc::Global;

/// Whether two parts are the two sides of a law of IF in a scope, from if-none to if-under. Both parts keep names, types,
/// directions and usage in the scope. Where a law asks about states, the answer is false over 24 bits.
pub fn holds(
    alloc: Global,
    store: &mut Store,
    law: LawId,
    scope: &Scope,
    left: &Proc,
    right: &Proc,
) -> Result<bool, Memory>
    requires first { 16 ≤ law.0 }
    requires last { law.0 ≤ 25 }
    requires scope { scope_kept scope.now ≡ true }
    requires left { Keeps (environment scope.now) (tree left.now) }
    requires right { Keeps (environment scope.now) (tree right.now) }
    ensures { IfOk result (λ answer. IsTrue answer ↔ LAW law.0 scope.now (tree left.now) (tree right.now)) }
{
    match law.law() {
        Some(Law::IfNone) => if_none(left, right),
        Some(Law::IfFalse) => if_false(alloc, store, scope, left, right),
        Some(Law::IfTrue) => if_true(alloc, store, scope, left, right),
        Some(Law::IfElseStop) => if_else_stop(left, right),
        Some(Law::IfCut) => if_cut(alloc, store, scope, left, right),
        Some(Law::IfNest) => if_nest(alloc, store, left, right),
        Some(Law::IfSwap) => if_swap(alloc, store, scope, left, right),
        Some(Law::IfMerge) => if_merge(alloc, store, left, right),
        Some(Law::IfCopy) => if_copy(alloc, store, scope, left, right),
        Some(Law::IfUnder) => if_under(alloc, store, scope, left, right),
        _ => Ok(false),
    }
}
