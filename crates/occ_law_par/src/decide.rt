ghost use Rattle.std.specs.Prelude.{◌≡◌, ◌↔◌, ◌≤◌, IfOk, IsTrue, true};
ghost use Rattle.occ_syntax.specs.Scopes.{environment};
ghost use Rattle.occ_syntax.specs.Types.{scope_kept};
ghost use Rattle.occ_syntax.specs.Usage.{Keeps};
ghost use Rattle.occ_syntax.specs.View.{tree};
ghost use Rattle.occ_law_shape.specs.occ_law.RuleTable.{LAW};

use crate::assign::par_assign;
use crate::choices::par_if;
use crate::expand::par_expand;
use crate::order::par_order;
use crate::parts::{par_flat, par_none, par_one, par_skip, par_stop};
use occ_law_shape::{Law, LawId, Store};
use occ_syntax::{Memory, Proc, Scope};
use std::alloc::Global;

/// Whether two parts are the two sides of a law of PAR, par-none to par-expand, in a scope. Both parts keep names, types,
/// directions and usage in the scope. The store holds the diagrams of the question that par-if asks about the states of the
/// scope; it may serve any number of calls.
pub fn holds(
    alloc: Global,
    store: &mut Store,
    law: LawId,
    scope: &Scope,
    left: &Proc,
    right: &Proc,
) -> Result<bool, Memory>
    requires first { 37 ≤ law.0 }
    requires last { law.0 ≤ 45 }
    requires scope { scope_kept scope.now ≡ true }
    requires left { Keeps (environment scope.now) (tree left.now) }
    requires right { Keeps (environment scope.now) (tree right.now) }
    ensures { IfOk result (λ answer. IsTrue answer ↔ LAW law.0 scope.now (tree left.now) (tree right.now)) }
{
    match law.law() {
        Some(Law::ParNone) => par_none(left, right),
        Some(Law::ParOne) => par_one(left, right),
        Some(Law::ParFlat) => par_flat(left, right),
        Some(Law::ParOrder) => par_order(alloc, left, right),
        Some(Law::ParSkip) => par_skip(left, right),
        Some(Law::ParStop) => par_stop(left, right),
        Some(Law::ParAssign) => Ok(par_assign(left, right)),
        Some(Law::ParIf) => par_if(alloc, store, scope, left, right),
        Some(Law::ParExpand) => Ok(par_expand(left, right)),
        _ => Ok(false),
    }
}
