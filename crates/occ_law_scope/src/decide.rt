ghost use Rattle.std.specs.Prelude.{◌≡◌, ◌↔◌, ◌≤◌, IfOk, IsTrue, true};
ghost use Rattle.occ_law_shape.specs.occ_law.RuleTable.{LAW};
ghost use Rattle.occ_syntax.specs.Scopes.{environment};
ghost use Rattle.occ_syntax.specs.Types.{scope_kept};
ghost use Rattle.occ_syntax.specs.Usage.{Keeps};
ghost use Rattle.occ_syntax.specs.View.{tree};

use crate::choices::{chan_if, var_if};
use crate::input::var_alt;
use crate::moves::{
    chan_par, chan_seq, chan_swap, chan_unused, var_first, var_last, var_par, var_swap, var_unused,
};
use crate::pairs::{var_assign, var_end};
use crate::renaming::{chan_rename, var_rename};
use crate::unheard::chan_alt;
use crate::values::var_any;
use occ_law_shape::{Law, LawId, Store};
use occ_syntax::{Memory, Proc, Scope};
use std::alloc::Global;

/// Whether two parts are the two sides of a law of declarations in a scope: var-unused and the laws behind it in the
/// table, to the last one, chan-par. Both parts keep names, types, directions and usage in the scope. No law of
/// declarations asks anything of the store.
pub fn holds(
    alloc: Global,
    _store: &mut Store,
    law: LawId,
    scope: &Scope,
    left: &Proc,
    right: &Proc,
) -> Result<bool, Memory>
    requires first { 46 ≤ law.0 }
    requires last { law.0 ≤ 63 }
    requires scope { scope_kept scope.now ≡ true }
    requires left { Keeps (environment scope.now) (tree left.now) }
    requires right { Keeps (environment scope.now) (tree right.now) }
    ensures { IfOk result (λ answer. IsTrue answer ↔ LAW law.0 scope.now (tree left.now) (tree right.now)) }
{
    match law.law() {
        Some(Law::VarUnused) => var_unused(alloc, left, right),
        Some(Law::VarRename) => var_rename(alloc, scope, left, right),
        Some(Law::VarSwap) => var_swap(left, right),
        Some(Law::VarFirst) => var_first(alloc, left, right),
        Some(Law::VarLast) => var_last(alloc, left, right),
        Some(Law::VarIf) => var_if(alloc, left, right),
        Some(Law::VarAlt) => var_alt(alloc, scope, left, right),
        Some(Law::VarPar) => var_par(alloc, left, right),
        Some(Law::VarAny) => var_any(scope, left, right),
        Some(Law::VarAssign) => var_assign(left, right),
        Some(Law::VarEnd) => var_end(left, right),
        Some(Law::ChanUnused) => chan_unused(alloc, left, right),
        Some(Law::ChanRename) => chan_rename(alloc, scope, left, right),
        Some(Law::ChanSwap) => chan_swap(left, right),
        Some(Law::ChanSeq) => chan_seq(left, right),
        Some(Law::ChanIf) => chan_if(alloc, left, right),
        Some(Law::ChanAlt) => chan_alt(left, right),
        Some(Law::ChanPar) => chan_par(alloc, left, right),
        _ => Ok(false),
    }
}
