ghost use Rattle.std.specs.Prelude.{◌≡◌, ◌↔◌, ◌≤◌, IfOk, IsTrue, true};
ghost use Rattle.occ_syntax.specs.Scopes.{environment};
ghost use Rattle.occ_syntax.specs.Types.{scope_kept};
ghost use Rattle.occ_syntax.specs.Usage.{Keeps};
ghost use Rattle.occ_syntax.specs.View.{tree};
ghost use Rattle.occ_law_shape.specs.occ_law.RuleTable.{LAW};

use crate::assigned::{assign_alt, assign_if};
use crate::assignment::{assign_id, assign_join, assign_order, assign_pad};
use crate::behind::{seq_alt, seq_if};
use crate::communication::io_alt;
use crate::expressions::expr;
use crate::sequence::{seq_flat, seq_none, seq_one, seq_skip, seq_stop};
use occ_law_shape::{Law, LawId, Store};
use occ_syntax::{Memory, Proc, Scope};
use std::alloc::Global;

/// Whether two parts are the two sides of a law in a scope. The law is one of the first fifteen of the table, from seq-none
/// to io-alt. Both parts keep names, types, directions and usage in the scope. Expressions are compared in every state by
/// diagrams of the store.
pub fn holds(
    alloc: Global,
    store: &mut Store,
    law: LawId,
    scope: &Scope,
    left: &Proc,
    right: &Proc,
) -> Result<bool, Memory>
    requires first { 1 ≤ law.0 }
    requires last { law.0 ≤ 15 }
    requires scope { scope_kept scope.now ≡ true }
    requires left { Keeps (environment scope.now) (tree left.now) }
    requires right { Keeps (environment scope.now) (tree right.now) }
    ensures { IfOk result (λ answer. IsTrue answer ↔ LAW law.0 scope.now (tree left.now) (tree right.now)) }
{
    match law.law() {
        Some(Law::SeqNone) => seq_none(left, right),
        Some(Law::SeqOne) => seq_one(left, right),
        Some(Law::SeqFlat) => seq_flat(left, right),
        Some(Law::SeqSkip) => seq_skip(left, right),
        Some(Law::SeqStop) => seq_stop(left, right),
        Some(Law::AssignId) => assign_id(left, right),
        Some(Law::AssignOrder) => assign_order(left, right),
        Some(Law::AssignPad) => assign_pad(left, right),
        Some(Law::AssignJoin) => assign_join(left, right),
        Some(Law::AssignIf) => assign_if(alloc, left, right),
        Some(Law::AssignAlt) => assign_alt(alloc, left, right),
        Some(Law::SeqIf) => seq_if(alloc, left, right),
        Some(Law::SeqAlt) => seq_alt(alloc, left, right),
        Some(Law::Expr) => expr(alloc, store, scope, left, right),
        Some(Law::IoAlt) => io_alt(left, right),
        _ => Ok(false),
    }
}
