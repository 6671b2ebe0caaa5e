ghost use Rattle.std.specs.Prelude.{◌≡◌, true, IfOk, IsSome};
ghost use Rattle.occ_dd.specs.Store.{IsSet, Keeps};
ghost use Rattle.occ_syntax.specs.View.{exp};
ghost use Rattle.occ_syntax.specs.Eval.{is_true};
ghost use Rattle.occ_syntax.specs.Types.{is_condition, type_of};
ghost use Rattle.occ_bits.specs.Layout.{IsLayout, environment_in, state_of};
ghost use Rattle.occ_bits.specs.Words.{IsValue};

use crate::circuits::{apply, flip};
use crate::digits::{Digits, numeral, variable};
use crate::{Layout, WordBits};
use occ_dd::{Memory, Name, SetId, Store, Width};
use occ_syntax::Expr;
use std::alloc::Global;

/// The set of the assignments in whose state a condition is TRUE. The expression is a BOOL in the layout. Each number
/// that the store gave keeps its set, also where memory runs out.
pub fn condition(
    alloc: Global,
    store: &mut Store,
    layout: &Layout,
    expr: &Expr,
) -> Result<SetId, Memory>
    requires typed { is_condition (environment_in layout.now) (exp expr.now) ≡ true }
    ensures keeps { Keeps store.old store.new }
    ensures set { IfOk result (λ r. IsSet store.new r
        (λ x. is_true (environment_in layout.now) (exp expr.now) (state_of layout.now x))) }
{
    let digits = value(alloc, store, layout.items(), expr)?;
    Ok(digits.sets()[0])
}

/// The binary digits of an expression's value, the lowest first: for each the set of the assignments in whose state it
/// is 1. The expression has a type in the layout; a BOOL has one digit. Each number that the store gave keeps its set,
/// also where memory runs out. Sums and differences go digit by digit, as in the full adder and subtractor of hardware.
pub fn word(
    alloc: Global,
    store: &mut Store,
    layout: &Layout,
    expr: &Expr,
) -> Result<WordBits, Memory>
    requires typed { IsSome (type_of (environment_in layout.now) (exp expr.now)) }
    ensures keeps { Keeps store.old store.new }
    ensures value { IfOk result (λ word. IsValue store.new layout.now (exp expr.now) word) }
{
    let digits = value(alloc, store, layout.items(), expr)?;
    Ok(WordBits::new(digits))
}

fn value(
    alloc: Global,
    store: &mut Store,
    entries: &[(Name, Width, u32)],
    expr: &Expr,
) -> Result<Digits, Memory>
    requires laid { IsLayout entries.now }
    requires typed { IsSome (type_of (environment_in entries.now) (exp expr.now)) }
    ensures keeps { Keeps store.old store.new }
    ensures value { IfOk result (λ word. IsValue store.new entries.now (exp expr.now) word) }
{
    match expr {
        Expr::Var(name) => variable(alloc, store, entries, *name),
        Expr::Word { bits, value } => Ok(numeral(alloc, store, *bits, *value)),
        Expr::Bool(truth) => Ok(numeral(alloc, store, 1, u8::from(*truth))),
        Expr::Not(operand) | Expr::Flip(operand) => {
            let digits = value(alloc, store, entries, operand)?;
            flip(alloc, store, digits.sets())
        }
        Expr::Two(op, left, right) => {
            let left_digits = value(alloc, store, entries, left)?;
            let right_digits = value(alloc, store, entries, right)?;
            apply(alloc, store, *op, left_digits.sets(), right_digits.sets())
        }
    }
}
