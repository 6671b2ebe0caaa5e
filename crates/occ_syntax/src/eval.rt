ghost use Rattle.std.specs.Prelude.{◌≡◌, ◌-◌, ◌%◌, ◌^◌, ◌≤◌, IsSome, true};
ghost use Rattle.occ_syntax.specs.View.{exp};
ghost use Rattle.occ_syntax.specs.Scopes.{environment, values, variable_width};
ghost use Rattle.occ_syntax.specs.Eval.{eval, bits_of_exp, applied, keeps_width as is_kept};
ghost use Rattle.occ_syntax.specs.Types.{type_of, scope_kept};

use crate::{Expr, Kind, Op};
use occ_base::{Name, Width};

/// The value of an expression that has a type in the scope, in a state given by a list of values. It takes no memory.
pub fn value(scope: &[(Name, Kind)], state: &[(Name, u8)], expr: &Expr) -> u8
    requires scope { scope_kept scope.now ≡ true }
    requires typed { IsSome (type_of (environment scope.now) (exp expr.now)) }
    ensures { result ≡ eval (environment scope.now) (exp expr.now) (values state.now) }
{
    match expr {
        Expr::Var(name) => held(state, *name),
        Expr::Word { value, .. } => *value,
        Expr::Bool(truth) => u8::from(*truth),
        Expr::Not(operand) => 1u8.saturating_sub(value(scope, state, operand)),
        Expr::Flip(operand) => {
            let ones = ones(bits(scope, operand));
            ones.saturating_sub(value(scope, state, operand))
        }
        Expr::Two(op, left, right) => {
            let left_value = value(scope, state, left);
            let right_value = value(scope, state, right);
            apply(*op, bits(scope, left), left_value, right_value)
        }
    }
}

/// The value of a variable in a list of values; 0 where it isn't there.
pub fn held(state: &[(Name, u8)], name: Name) -> u8
    ensures { result ≡ values state.now name.0 }
{
    for (variable, value) in state {
        if *variable == name {
            return *value;
        }
    }
    0
}

/// The width of a variable in scope; None where there is none of that name.
pub fn width_of(scope: &[(Name, Kind)], name: Name) -> Option<Width>
    ensures { result ≡ variable_width (environment scope.now) name.0 }
{
    for (other, kind) in scope {
        if *other == name {
            return match kind {
                Kind::Var(width) => Some(*width),
                Kind::Chan(_, _) => None,
            };
        }
    }
    None
}

/// How many bits the value of an expression has that has a type in the scope: 1 to 8.
pub fn bits(scope: &[(Name, Kind)], expr: &Expr) -> u8
    requires scope { scope_kept scope.now ≡ true }
    requires typed { IsSome (type_of (environment scope.now) (exp expr.now)) }
    ensures bits { result ≡ bits_of_exp (environment scope.now) (exp expr.now) }
    ensures least { 1 ≤ result }
    ensures most { result ≤ 8 }
{
    match expr {
        Expr::Var(name) => match width_of(scope, *name) {
            Some(width) => width.bits(),
            None => unreachable!(),
        },
        Expr::Word { bits, .. } => *bits,
        Expr::Bool(_) | Expr::Not(_) => 1,
        Expr::Flip(operand) => bits(scope, operand),
        Expr::Two(op, left, _) => {
            if keeps_width(*op) {
                bits(scope, left)
            } else {
                1
            }
        }
    }
}

fn keeps_width(op: Op) -> bool
    ensures { result ≡ is_kept op }
{
    matches!(
        op,
        Op::Plus | Op::Minus | Op::BitAnd | Op::BitOr | Op::BitXor
    )
}

/// The greatest number of that many bits.
fn ones(bits: u8) -> u8
    requires least { 1 ≤ bits }
    requires most { bits ≤ 8 }
    ensures { result ≡ 2 ^ bits - 1 }
{
    ((1u16 << bits) - 1) as u8
}

fn apply(op: Op, bits: u8, left: u8, right: u8) -> u8
    requires { bits ≤ 8 }
    ensures { result ≡ applied op bits left right }
{
    match op {
        Op::Plus => wrapped(u16::from(left) + u16::from(right), bits),
        Op::Minus => {
            let size = 1u16 << bits;
            wrapped(
                u16::from(left) + size.saturating_sub(u16::from(right)),
                bits,
            )
        }
        Op::And | Op::BitAnd => left & right,
        Op::Or | Op::BitOr => left | right,
        Op::BitXor => left ^ right,
        Op::Equal => u8::from(left == right),
        Op::Differ => u8::from(left != right),
        Op::Less => u8::from(left < right),
        Op::Greater => u8::from(left > right),
        Op::AtMost => u8::from(left <= right),
        Op::AtLeast => u8::from(left >= right),
    }
}

/// A number modulo two to the width.
fn wrapped(number: u16, bits: u8) -> u8
    requires { bits ≤ 8 }
    ensures { result ≡ number % 2 ^ bits }
{
    (number % (1u16 << bits)) as u8
}
