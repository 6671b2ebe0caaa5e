//! Decides every law of the table: whether two parts are the two sides of the law of a number.

ghost use Rattle.std.specs.Prelude.{◌≡◌, ◌↔◌, IfOk, IsTrue, true};
ghost use Rattle.occ_law_alt.specs.occ_law.RuleTable.{LAW};
ghost use Rattle.occ_syntax.specs.Scopes.{environment};
ghost use Rattle.occ_syntax.specs.Types.{scope_kept};
ghost use Rattle.occ_syntax.specs.Usage.{Keeps};
ghost use Rattle.occ_syntax.specs.View.{tree};

use occ_law_alt::{Family, LawId, Store};
use occ_syntax::{Memory, Proc, Scope};
use std::alloc::Global;

/// Whether two parts are the two sides of the law of that number in a scope, the left one first. Both parts keep names, types,
/// directions and usage there. A number that no law has never holds. The store serves the questions that some laws ask of
/// conditions.
pub fn holds(
    alloc: Global,
    store: &mut Store,
    law: LawId,
    scope: &Scope,
    left: &Proc,
    right: &Proc,
) -> Result<bool, Memory>
    requires scope { scope_kept scope.now ≡ true }
    requires left { Keeps (environment scope.now) (tree left.now) }
    requires right { Keeps (environment scope.now) (tree right.now) }
    ensures { IfOk result (λ answer. IsTrue answer ↔ LAW law.0 scope.now (tree left.now) (tree right.now)) }
{
    let Some(known) = law.law() else {
        return Ok(false);
    };
    match known.family() {
        Family::Seq => occ_law_right::law_seq_holds(alloc, store, law, scope, left, right),
        Family::If => occ_law_if::holds(alloc, store, law, scope, left, right),
        Family::Alt => occ_law_alt::holds(alloc, store, law, scope, left, right),
        Family::Par => occ_law_par::holds(alloc, store, law, scope, left, right),
        Family::Scope => occ_law_right::holds(alloc, store, law, scope, left, right),
    }
}
