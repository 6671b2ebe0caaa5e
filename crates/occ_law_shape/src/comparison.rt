ghost use Rattle.std.specs.Prelude.{◌≡◌, ◌∷◌, ◌++◌, ◌↔◌, OnOk, IfOk, IsTrue, true};
ghost use Rattle.occ_syntax.specs.Scopes.{environment};
ghost use Rattle.occ_syntax.specs.Types.{agree, scope_kept, type_of};
ghost use Rattle.occ_syntax.specs.View.{cases, exp, exps};
ghost use Rattle.occ_law.specs.occ_bits.Named.{IsEqualUnder, are_conditions};
ghost use Rattle.occ_law.specs.Lists.{conditions};
ghost use Rattle.occ_law.specs.States.{AreFew};
ghost use Rattle.occ_law_shape.specs.Conditions.{IsNeverAll, negations};

use occ_law::{Store, equal_under, named_bits};
use occ_syntax::{Expr, Exprs, Memory, Proc, Scope};
use std::alloc::Global;

/// The most bits that the variables of one question may have together.
const MOST_BITS: u64 = 24;

/// Two expressions, to be compared in the states of a scope in which all of some conditions are TRUE.
#[derive(Clone, Copy)]
pub(crate) struct Comparison<'a> {
    pub(crate) scope: &'a Scope,
    pub(crate) under: &'a [Expr],
    pub(crate) left: &'a Expr,
    pub(crate) right: &'a Expr,
}

impl Comparison<'_> {
    /// Whether the two have one value in these states, and all expressions together name variables of few bits.
    pub(crate) fn holds(&self, alloc: Global, store: &mut Store) -> Result<bool, Memory>
        requires scope { scope_kept self.now.scope.now ≡ true }
        requires under { are_conditions (environment self.now.scope.now) (exps self.now.under.now) ≡ true }
        requires types { agree (type_of (environment self.now.scope.now) (exp self.now.left.now))
            (type_of (environment self.now.scope.now) (exp self.now.right.now)) ≡ true }
        ensures { IfOk result (λ answer. IsTrue answer
            ↔ (AreFew self.now.scope.now (exp self.now.left.now ∷ exp self.now.right.now ∷ exps self.now.under.now)
            × IsEqualUnder (environment self.now.scope.now) (exps self.now.under.now) (exp self.now.left.now) (exp self.now.right.now))) }
    {
        let exprs = self.exprs(alloc)?;
        if named_bits(self.scope, exprs.items()) > MOST_BITS {
            return Ok(false);
        }
        equal_under(alloc, store, self.scope, self.under, self.left, self.right)
    }

    /// All expressions of the question.
    fn exprs(&self, alloc: Global) -> Result<Exprs, Memory>
        ensures { IfOk result (λ all. exps all ≡ exp self.now.left.now ∷ exp self.now.right.now ∷ exps self.now.under.now) }
    {
        let mut all = Exprs::new(alloc);
        all.push(self.left.copy(alloc)?)?;
        all.push(self.right.copy(alloc)?)?;
        for condition in self.under {
            all.push(condition.copy(alloc)?)?;
        }
        Ok(all)
    }
}

/// Whether in no state of a scope all of the conditions are TRUE, and these name variables of few bits.
pub(crate) fn is_never_all(
    alloc: Global,
    store: &mut Store,
    scope: &Scope,
    under: &[Expr],
) -> Result<bool, Memory>
    requires scope { scope_kept scope.now ≡ true }
    requires under { are_conditions (environment scope.now) (exps under.now) ≡ true }
    ensures { IfOk result (λ answer. IsTrue answer
        ↔ (AreFew scope.now (exps under.now) × IsNeverAll (environment scope.now) (exps under.now))) }
{
    let comparison = Comparison {
        scope,
        under,
        left: &Expr::Bool(true),
        right: &Expr::Bool(false),
    };
    comparison.holds(alloc, store)
}

/// Adds NOT of the condition of each choice at the end of a list.
pub(crate) fn push_negations(
    alloc: Global,
    exprs: &mut Exprs,
    choices: &[(Expr, Proc)],
) -> Result<(), Memory>
    ensures { OnOk result (exps exprs.new ≡ exps exprs.old ++ negations (conditions (cases choices.now))) }
{
    for (condition, _) in choices {
        let operand = Box::new(alloc, condition.copy(alloc)?)?;
        exprs.push(Expr::Not(operand))?;
    }
    Ok(())
}
