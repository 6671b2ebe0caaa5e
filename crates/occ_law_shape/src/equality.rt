ghost use Rattle.std.specs.Prelude.{◌≡◌, ◌↔◌, IfOk, IsTrue, true};
ghost use Rattle.occ_syntax.specs.Scopes.{Environment, environment};
ghost use Rattle.occ_syntax.specs.Tree.{Exp};
ghost use Rattle.occ_syntax.specs.Types.{agree, is_condition, scope_kept, type_of};
ghost use Rattle.occ_syntax.specs.View.{cases, exp};
ghost use Rattle.occ_law.specs.occ_bits.Named.{are_conditions};
ghost use Rattle.occ_law.specs.Lists.{conditions};
ghost use Rattle.occ_law.specs.States.{IsEqualAlways, IsEqualWhere};

use crate::comparison::{Comparison, push_negations};
use occ_law::Store;
use occ_syntax::{Expr, Exprs, Memory, Proc, Scope};
use std::alloc::Global;

/// In which states expressions that stand in one place of two parts have one value.
pub trait Equality {
    ghost environment: { Self → Environment };

    ghost is_ready: { Self → Type 0 };

    ghost equals: { Self → Exp → Exp → Type 0 };

    /// Whether two expressions of one type are equal so.
    fn holds(
        &self,
        alloc: Global,
        store: &mut Store,
        left: &Expr,
        right: &Expr,
    ) -> Result<bool, Memory>
        requires ready { is_ready self.now }
        requires types { agree (type_of (environment self.now) (exp left.now)) (type_of (environment self.now) (exp right.now)) ≡ true }
        ensures { IfOk result (λ answer. IsTrue answer ↔ equals self.now (exp left.now) (exp right.now)) };
}

/// In every state of a scope.
#[derive(Clone, Copy)]
pub struct Always<'a> {
    pub scope: &'a Scope,
}

impl Equality for Always<'_> {
    ghost environment = { λ here. environment here.scope.now };

    ghost is_ready = { λ here. scope_kept here.scope.now ≡ true };

    ghost equals = { λ here. IsEqualAlways here.scope.now };

    fn holds(
        &self,
        alloc: Global,
        store: &mut Store,
        left: &Expr,
        right: &Expr,
    ) -> Result<bool, Memory> {
        let none = Exprs::new(alloc);
        let comparison = Comparison {
            scope: self.scope,
            under: none.items(),
            left,
            right,
        };
        comparison.holds(alloc, store)
    }
}

/// In every state of a scope in which a choice is taken: its condition is TRUE, and those of the choices before it are
/// FALSE.
#[derive(Clone, Copy)]
pub struct Where<'a> {
    pub scope: &'a Scope,
    pub condition: &'a Expr,
    pub before: &'a [(Expr, Proc)],
}

impl Equality for Where<'_> {
    ghost environment = { λ here. environment here.scope.now };

    ghost is_ready = { λ here. (scope_kept here.scope.now ≡ true)
        × (is_condition (environment here.scope.now) (exp here.condition.now) ≡ true)
        × (are_conditions (environment here.scope.now) (conditions (cases here.before.now)) ≡ true) };

    ghost equals = { λ here. IsEqualWhere here.scope.now (exp here.condition.now) (conditions (cases here.before.now)) };

    fn holds(
        &self,
        alloc: Global,
        store: &mut Store,
        left: &Expr,
        right: &Expr,
    ) -> Result<bool, Memory> {
        let mut under = Exprs::new(alloc);
        under.push(self.condition.copy(alloc)?)?;
        push_negations(alloc, &mut under, self.before)?;
        let comparison = Comparison {
            scope: self.scope,
            under: under.items(),
            left,
            right,
        };
        comparison.holds(alloc, store)
    }
}
