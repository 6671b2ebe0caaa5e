ghost use Rattle.std.specs.Prelude.{◌≡◌, ◌↔◌, ◌≤◌, IfOk, IsTrue, true};
ghost use Rattle.occ_syntax.specs.Scopes.{environment};
ghost use Rattle.occ_syntax.specs.Types.{scope_kept};
ghost use Rattle.occ_syntax.specs.Usage.{Keeps};
ghost use Rattle.occ_syntax.specs.View.{tree};
ghost use Rattle.occ_law_shape.specs.occ_law.RuleTable.{LAW};

use crate::case::alt_case;
use crate::least::{alt_least, alt_slide};
use crate::never::alt_false;
use crate::order::alt_order;
use crate::placed::{alt_flat, alt_same, alt_split, alt_twice};
use crate::simple::{alt_none, alt_skip};
use occ_law_shape::{Law, LawId, Store};
use occ_syntax::{Memory, Proc, Scope};
use std::alloc::Global;

/// Whether two parts are the two sides of a law of ALT in a scope, from alt-none to alt-least. Both parts keep names, types,
/// directions and usage in the scope. The store is where states are compared. The error is out of memory.
pub fn holds(
    alloc: Global,
    store: &mut Store,
    law: LawId,
    scope: &Scope,
    left: &Proc,
    right: &Proc,
) -> Result<bool, Memory>
    requires first { 26 ≤ law.0 }
    requires last { law.0 ≤ 36 }
    requires scope { scope_kept scope.now ≡ true }
    requires left { Keeps (environment scope.now) (tree left.now) }
    requires right { Keeps (environment scope.now) (tree right.now) }
    ensures { IfOk result (λ answer. IsTrue answer ↔ LAW law.0 scope.now (tree left.now) (tree right.now)) }
{
    match law.law() {
        Some(Law::AltNone) => alt_none(left, right),
        Some(Law::AltOrder) => alt_order(alloc, left, right),
        Some(Law::AltFalse) => alt_false(alloc, store, scope, left, right),
        Some(Law::AltTwice) => alt_twice(left, right),
        Some(Law::AltSkip) => alt_skip(left, right),
        Some(Law::AltCase) => alt_case(left, right),
        Some(Law::AltFlat) => alt_flat(left, right),
        Some(Law::AltSplit) => alt_split(left, right),
        Some(Law::AltSame) => alt_same(left, right),
        Some(Law::AltSlide) => alt_slide(left, right),
        Some(Law::AltLeast) => alt_least(left, right),
        _ => Ok(false),
    }
}
