//! Expressions.

use crate::scope::Scope;
use crate::text::put;
use occ_syntax::{Expr, Memory, Op, push_number};

impl Scope {
    /// Adds an expression.
    pub(crate) fn put_expression(&self, text: &mut Vec<u8>, expr: &Expr) -> Result<(), Memory> {
        match expr {
            Expr::Var(name) => self.put_name(text, *name),
            Expr::Word { value, .. } => push_number(text, u64::from(*value)),
            Expr::Bool(true) => put(text, b"1"),
            Expr::Bool(false) => put(text, b"0"),
            Expr::Not(operand) => {
                put(text, b"(!")?;
                self.put_expression(text, operand)?;
                put(text, b")")
            }
            Expr::Flip(operand) => {
                put(text, b"(")?;
                push_number(text, greatest(self.width(operand)))?;
                put(text, b" - ")?;
                self.put_expression(text, operand)?;
                put(text, b")")
            }
            Expr::Two(op, left, right) => {
                let sum = matches!(op, Op::Plus | Op::Minus);
                put(text, if sum { b"((" } else { b"(" })?;
                self.put_expression(text, left)?;
                put(text, sign(*op))?;
                self.put_expression(text, right)?;
                if sum {
                    put(text, b") & ")?;
                    push_number(text, greatest(self.width(left)))?;
                }
                put(text, b")")
            }
        }
    }

    /// How many bits the value of an expression has.
    fn width(&self, expr: &Expr) -> u8 {
        match expr {
            Expr::Var(name) => self.bits(*name),
            Expr::Word { bits, .. } => *bits,
            Expr::Bool(_) | Expr::Not(_) => 1,
            Expr::Flip(operand) => self.width(operand),
            Expr::Two(op, left, _) => match op {
                Op::Plus | Op::Minus | Op::BitAnd | Op::BitOr | Op::BitXor => self.width(left),
                _ => 1,
            },
        }
    }
}

/// The greatest number of so many bits.
pub(crate) fn greatest(bits: u8) -> u64 {
    (1 << bits.min(8)) - 1
}

/// An operator, with a space before and behind it.
fn sign(op: Op) -> &'static [u8] {
    match op {
        Op::Plus => b" + ",
        Op::Minus => b" - ",
        Op::And => b" && ",
        Op::Or => b" || ",
        Op::BitAnd => b" & ",
        Op::BitOr => b" | ",
        Op::BitXor => b" ^ ",
        Op::Equal => b" == ",
        Op::Differ => b" != ",
        Op::Less => b" < ",
        Op::Greater => b" > ",
        Op::AtMost => b" <= ",
        Op::AtLeast => b" >= ",
    }
}
