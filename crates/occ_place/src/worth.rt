use occ_syntax::{Expr, Name, Op, Width};

/// A variable that is in scope: its name, its width and its value.
pub(crate) type Held = (Name, Width, u8);

/// The value of an expression, where the innermost variables are the last. Of a variable that isn't there it is 0.
pub(crate) fn worth(held: &[Held], expr: &Expr) -> u8 {
    match expr {
        Expr::Var(name) => held_of(held, *name).1,
        Expr::Word { value, .. } => *value,
        Expr::Bool(truth) => u8::from(*truth),
        Expr::Not(operand) => u8::from(worth(held, operand) == 0),
        Expr::Flip(operand) => (worth(held, operand) ^ 255) & mask(bits(held, operand)),
        Expr::Two(op, left, right) => {
            let mask = mask(bits(held, left));
            applied(*op, worth(held, left), worth(held, right), mask)
        }
    }
}

/// The bits of a variable, and its value.
fn held_of(held: &[Held], name: Name) -> (u8, u8) {
    let mut found = (8, 0);
    for (other, width, value) in held {
        if *other == name {
            found = (width.bits(), *value);
        }
    }
    found
}

fn bits(held: &[Held], expr: &Expr) -> u8 {
    match expr {
        Expr::Var(name) => held_of(held, *name).0,
        Expr::Word { bits, .. } => *bits,
        Expr::Bool(_) | Expr::Not(_) => 1,
        Expr::Flip(operand) => bits(held, operand),
        Expr::Two(op, left, _) => match op {
            Op::Plus | Op::Minus | Op::BitAnd | Op::BitOr | Op::BitXor => bits(held, left),
            _ => 1,
        },
    }
}

/// The greatest number of so many bits.
fn mask(bits: u8) -> u8 {
    match bits {
        0 | 1 => 1,
        2 => 3,
        3 => 7,
        4 => 15,
        5 => 31,
        6 => 63,
        7 => 127,
        _ => 255,
    }
}

fn applied(op: Op, left: u8, right: u8, mask: u8) -> u8 {
    match op {
        Op::Plus => left.wrapping_add(right) & mask,
        Op::Minus => left.wrapping_sub(right) & mask,
        Op::And | Op::BitAnd => left & right,
        Op::Or | Op::BitOr => left | right,
        Op::BitXor => left ^ right,
        Op::Equal => u8::from(left == right),
        Op::Differ => u8::from(left != right),
        Op::Less => u8::from(left < right),
        Op::Greater => u8::from(left > right),
        Op::AtMost => u8::from(left <= right),
        Op::AtLeast => u8::from(left >= right),
    }
}
