//! Whether a program keeps the rules with a part exchanged.

ghost use Rattle.std.specs.Prelude.{◌≡◌, ◌↔◌, IfOk, IsTrue, true};
ghost use Rattle.occ_syntax.specs.Scopes.{environment};
ghost use Rattle.occ_syntax.specs.Types.{scope_kept};
ghost use Rattle.occ_syntax.specs.Usage.{Keeps};
ghost use Rattle.occ_syntax.specs.View.{tree};
ghost use Rattle.occ_usage.specs.Accepted.{KeepsRules};
ghost use Rattle.occ_usage.specs.Local.{IsExchanged};

use crate::keeps;
use crate::using::uses_no_more;
use occ_syntax::{Memory, Name, Proc, Program, Scope};
use std::alloc::Global;

/// Whether a part keeps the rules in a scope.
fn keeps_alone(alloc: Global, scope: &Scope, part: &Proc) -> Result<bool, Memory>
    requires { scope_kept scope.now ≡ true }
    ensures { IfOk result (λ kept. IsTrue kept ↔ Keeps (environment scope.now) (tree part.now)) }
{
    let alone = Program {
        name: Name(0),
        params: scope.copy(alloc)?,
        body: part.copy(alloc)?,
    };
    keeps(alloc, &alone)
}

/// Whether a program keeps the rules after a part was put in the place of an old one, in that scope. Where the new part names,
/// writes and uses no more than the old one, it costs the size of the two parts and of the scope; else that of the program.
pub fn keeps_exchanged(
    alloc: Global,
    scope: &Scope,
    old: &Proc,
    new: &Proc,
    whole: &Program,
) -> Result<bool, Memory>
    requires { IsExchanged scope.now (tree old.now) (tree new.now) whole.now }
    ensures { IfOk result (λ kept. IsTrue kept ↔ KeepsRules whole.now) }
{
    if uses_no_more(alloc, new, old)? {
        keeps_alone(alloc, scope, new)
    } else {
        keeps(alloc, whole)
    }
}
