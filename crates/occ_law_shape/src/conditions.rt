ghost use Rattle.std.specs.Prelude.{◌≡◌, [], ◌∷◌, ◌↔◌, IfOk, IsTrue, true};
ghost use Rattle.occ_syntax.specs.Scopes.{environment};
ghost use Rattle.occ_syntax.specs.Types.{is_condition, scope_kept};
ghost use Rattle.occ_syntax.specs.View.{cases, exp};
ghost use Rattle.occ_law.specs.occ_bits.Named.{are_conditions};
ghost use Rattle.occ_law.specs.Lists.{conditions};
ghost use Rattle.occ_law.specs.States.{AreFew, ExcludeEachOther, IsAlways, IsExhaustive, IsNever};

use crate::comparison::{Comparison, is_never_all, push_negations};
use occ_law::Store;
use occ_syntax::{Expr, Exprs, Memory, Proc, Scope};
use std::alloc::Global;
use std::slice::from_ref;

/// Whether a condition is TRUE in every state of the scope. The answer is false where the variables that it names have more
/// than 24 bits.
pub fn is_always(
    alloc: Global,
    store: &mut Store,
    scope: &Scope,
    condition: &Expr,
) -> Result<bool, Memory>
    requires scope { scope_kept scope.now ≡ true }
    requires typed { is_condition (environment scope.now) (exp condition.now) ≡ true }
    ensures { IfOk result (λ answer. IsTrue answer
        ↔ (AreFew scope.now (exp condition.now ∷ []) × IsAlways (environment scope.now) (exp condition.now))) }
{
    let none = Exprs::new(alloc);
    let comparison = Comparison {
        scope,
        under: none.items(),
        left: condition,
        right: &Expr::Bool(true),
    };
    comparison.holds(alloc, store)
}

/// Whether a condition is FALSE in every state of the scope. The answer is false where the variables that it names have more
/// than 24 bits.
pub fn is_never(
    alloc: Global,
    store: &mut Store,
    scope: &Scope,
    condition: &Expr,
) -> Result<bool, Memory>
    requires scope { scope_kept scope.now ≡ true }
    requires typed { is_condition (environment scope.now) (exp condition.now) ≡ true }
    ensures { IfOk result (λ answer. IsTrue answer
        ↔ (AreFew scope.now (exp condition.now ∷ []) × IsNever (environment scope.now) (exp condition.now))) }
{
    is_never_all(alloc, store, scope, from_ref(condition))
}

/// Whether two conditions are TRUE together in no state of the scope. The answer is false where the variables that they name
/// have more than 24 bits.
pub fn exclude_each_other(
    alloc: Global,
    store: &mut Store,
    scope: &Scope,
    first: &Expr,
    second: &Expr,
) -> Result<bool, Memory>
    requires scope { scope_kept scope.now ≡ true }
    requires first { is_condition (environment scope.now) (exp first.now) ≡ true }
    requires second { is_condition (environment scope.now) (exp second.now) ≡ true }
    ensures { IfOk result (λ answer. IsTrue answer ↔ (AreFew scope.now (exp first.now ∷ exp second.now ∷ [])
        × ExcludeEachOther (environment scope.now) (exp first.now) (exp second.now))) }
{
    let mut both = Exprs::new(alloc);
    both.push(first.copy(alloc)?)?;
    both.push(second.copy(alloc)?)?;
    is_never_all(alloc, store, scope, both.items())
}

/// Whether in every state of the scope some choice has a condition that is TRUE. The answer is false where the variables that
/// the conditions name have more than 24 bits together.
pub fn is_exhaustive(
    alloc: Global,
    store: &mut Store,
    scope: &Scope,
    choices: &[(Expr, Proc)],
) -> Result<bool, Memory>
    requires scope { scope_kept scope.now ≡ true }
    requires typed { are_conditions (environment scope.now) (conditions (cases choices.now)) ≡ true }
    ensures { IfOk result (λ answer. IsTrue answer ↔ (AreFew scope.now (conditions (cases choices.now))
        × IsExhaustive (environment scope.now) (conditions (cases choices.now)))) }
{
    let mut negations = Exprs::new(alloc);
    push_negations(alloc, &mut negations, choices)?;
    is_never_all(alloc, store, scope, negations.items())
}
