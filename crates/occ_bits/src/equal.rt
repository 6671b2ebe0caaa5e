ghost use Rattle.std.specs.Prelude.{◌≡◌, ◌≤◌, ◌==◌, ◌∷◌, ◌↔◌, true, IfOk, IsTrue};
ghost use Rattle.occ_dd.specs.Store.{IsSet, Keeps};
ghost use Rattle.occ_syntax.specs.Scopes.{environment};
ghost use Rattle.occ_syntax.specs.Types.{agree, scope_kept, type_of};
ghost use Rattle.occ_syntax.specs.View.{exp, exps};
ghost use Rattle.occ_bits.specs.Layout.{environment_in, state_of};
ghost use Rattle.occ_bits.specs.Named.{all_true, are_conditions, bits_named, IsEqualUnder};
ghost use Rattle.occ_bits.specs.Words.{value_at};

use crate::Layout;
use crate::circuits::equal;
use crate::expr::{condition, word};
use crate::named::named_scope;
use occ_dd::{Memory, SetId, Store};
use occ_syntax::{Expr, Scope};
use std::alloc::Global;

/// Whether two expressions have one value in each state of the scope in which all conditions of `under` are TRUE. The
/// conditions are BOOL in the scope, and the two expressions have one type there. The variables that all of them name
/// have at most 24 bits together (as `named_bits` counts them), and only these are laid out. Each number that the store
/// gave keeps its set, also where memory runs out.
pub fn equal_under(
    alloc: Global,
    store: &mut Store,
    scope: &Scope,
    under: &[Expr],
    left: &Expr,
    right: &Expr,
) -> Result<bool, Memory>
    requires scope { scope_kept scope.now ≡ true }
    requires under { are_conditions (environment scope.now) (exps under.now) ≡ true }
    requires types { agree (type_of (environment scope.now) (exp left.now)) (type_of (environment scope.now) (exp right.now)) ≡ true }
    requires few { bits_named scope.now (exp left.now ∷ exp right.now ∷ exps under.now) ≤ 24 }
    ensures keeps { Keeps store.old store.new }
    ensures equal { IfOk result (λ answer. IsTrue answer ↔
        IsEqualUnder (environment scope.now) (exps under.now) (exp left.now) (exp right.now)) }
{
    let part = named_scope(alloc, scope, left, right, under)?;
    let layout = Layout::of(alloc, &part)?;
    let premise = all_hold(alloc, store, &layout, under)?;
    let same = same_value(alloc, store, &layout, left, right)?;
    store.subset(premise, same)
}

/// The set of the assignments in whose state all conditions are TRUE.
fn all_hold(
    alloc: Global,
    store: &mut Store,
    layout: &Layout,
    under: &[Expr],
) -> Result<SetId, Memory>
    requires { are_conditions (environment_in layout.now) (exps under.now) ≡ true }
    ensures keeps { Keeps store.old store.new }
    ensures set { IfOk result (λ r. IsSet store.new r
        (λ x. all_true (environment_in layout.now) (exps under.now) (state_of layout.now x))) }
{
    let mut all = store.full();
    for expr in under {
        let holds = condition(alloc, store, layout, expr)?;
        all = store.and(all, holds)?;
    }
    Ok(all)
}

/// The set of the assignments in whose state two expressions of one type have one value.
fn same_value(
    alloc: Global,
    store: &mut Store,
    layout: &Layout,
    left: &Expr,
    right: &Expr,
) -> Result<SetId, Memory>
    requires { agree (type_of (environment_in layout.now) (exp left.now)) (type_of (environment_in layout.now) (exp right.now)) ≡ true }
    ensures keeps { Keeps store.old store.new }
    ensures set { IfOk result (λ r. IsSet store.new r
        (λ x. value_at layout.now (exp left.now) x == value_at layout.now (exp right.now) x)) }
{
    let left_bits = word(alloc, store, layout, left)?;
    let right_bits = word(alloc, store, layout, right)?;
    equal(store, left_bits.bits(), right_bits.bits())
}
