use occ_derive_expose::constant;
use occ_syntax::{Expr, Memory, Name, Op, Width};
use std::alloc::Global;

/// The variables of an assignment with their right sides.
pub(crate) type Pairs = Vec<(Name, Expr)>;

/// The right side of a variable; None where it isn't among them.
pub(crate) fn held(pairs: &[(Name, Expr)], name: Name) -> Option<&Expr> {
    for (variable, value) in pairs {
        if *variable == name {
            return Some(value);
        }
    }
    None
}

/// The first variable that an expression names and that has no right side here.
pub(crate) fn first_unknown(expr: &Expr, known: &[(Name, Expr)]) -> Option<Name> {
    match expr {
        Expr::Var(name) => match held(known, *name) {
            Some(_) => None,
            None => Some(*name),
        },
        Expr::Word { .. } | Expr::Bool(_) => None,
        Expr::Not(operand) | Expr::Flip(operand) => first_unknown(operand, known),
        Expr::Two(_, left, right) => match first_unknown(left, known) {
            Some(name) => Some(name),
            None => first_unknown(right, known),
        },
    }
}

/// An expression with the variables replaced by their right sides.
pub(crate) fn substituted(
    alloc: Global,
    expr: &Expr,
    pairs: &[(Name, Expr)],
) -> Result<Expr, Memory> {
    match expr {
        Expr::Var(name) => match held(pairs, *name) {
            Some(value) => value.copy(alloc),
            None => Ok(Expr::Var(*name)),
        },
        Expr::Word { .. } | Expr::Bool(_) => expr.copy(alloc),
        Expr::Not(operand) => {
            let operand = substituted(alloc, operand, pairs)?;
            Ok(Expr::Not(Box::new(alloc, operand)?))
        }
        Expr::Flip(operand) => {
            let operand = substituted(alloc, operand, pairs)?;
            Ok(Expr::Flip(Box::new(alloc, operand)?))
        }
        Expr::Two(op, left, right) => {
            let left = Box::new(alloc, substituted(alloc, left, pairs)?)?;
            let right = Box::new(alloc, substituted(alloc, right, pairs)?)?;
            Ok(Expr::Two(*op, left, right))
        }
    }
}

/// An expression that is no constant but names nothing, as a constant; None for any other.
pub(crate) fn made_constant(expr: &Expr) -> Option<Expr> {
    match expr {
        Expr::Var(_) | Expr::Word { .. } | Expr::Bool(_) => None,
        Expr::Not(_) | Expr::Flip(_) | Expr::Two(_, _, _) => {
            let (width, value) = value_in(expr, &[])?;
            Some(constant(width, value))
        }
    }
}

/// The width and the value of an expression where these variables have constant right sides; None where it names another.
pub(crate) fn value_in(expr: &Expr, known: &[(Name, Expr)]) -> Option<(Width, u8)> {
    match expr {
        Expr::Var(name) => literal(held(known, *name)?),
        Expr::Word { .. } | Expr::Bool(_) => literal(expr),
        Expr::Not(operand) => {
            let (_, value) = value_in(operand, known)?;
            Some((Width::Bool, 1u8.saturating_sub(value)))
        }
        Expr::Flip(operand) => {
            let (width, value) = value_in(operand, known)?;
            Some((width, greatest(width).saturating_sub(value)))
        }
        Expr::Two(op, left, right) => {
            let (width, left) = value_in(left, known)?;
            let (_, right) = value_in(right, known)?;
            Some(applied(*op, width, left, right))
        }
    }
}

/// The width and the value of a constant; None for any other expression.
pub(crate) fn literal(expr: &Expr) -> Option<(Width, u8)> {
    match expr {
        Expr::Word { bits, value } => Some((Width::Word(*bits), *value)),
        Expr::Bool(truth) => Some((Width::Bool, u8::from(*truth))),
        _ => None,
    }
}

fn applied(op: Op, width: Width, left: u8, right: u8) -> (Width, u8) {
    match op {
        Op::Plus => (width, wrapped(u16::from(left) + u16::from(right), width)),
        Op::Minus => {
            let size = u16::from(greatest(width)) + 1;
            let number = u16::from(left) + size.saturating_sub(u16::from(right));
            (width, wrapped(number, width))
        }
        Op::And | Op::BitAnd => (width, left & right),
        Op::Or | Op::BitOr => (width, left | right),
        Op::BitXor => (width, left ^ right),
        Op::Equal => (Width::Bool, u8::from(left == right)),
        Op::Differ => (Width::Bool, u8::from(left != right)),
        Op::Less => (Width::Bool, u8::from(left < right)),
        Op::Greater => (Width::Bool, u8::from(left > right)),
        Op::AtMost => (Width::Bool, u8::from(left <= right)),
        Op::AtLeast => (Width::Bool, u8::from(left >= right)),
    }
}

/// A number modulo two to the width.
fn wrapped(number: u16, width: Width) -> u8 {
    (number % (u16::from(greatest(width)) + 1)) as u8
}

/// The greatest value of a width.
pub(crate) fn greatest(width: Width) -> u8 {
    let bits = width.bits();
    if bits >= 8 {
        return u8::MAX;
    }
    (1u8 << bits).saturating_sub(1)
}
