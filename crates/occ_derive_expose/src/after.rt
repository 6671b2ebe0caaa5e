//! What follows a head form in a SEQ.

use crate::around::Turn;
use crate::build::{alone, followed, in_two};
use occ_derive_trail::{Law, Lost, Piece, Trail, alt_of, if_of, seq_of, seq_of_two, var_of};
use occ_syntax::{Expr, Guard, Memory, Proc};
use std::alloc::Global;

/// A SEQ whose first part has its head form, and the parts behind it.
pub(crate) fn after(trail: &mut Trail, head: Piece, rest: Vec<Proc>) -> Result<Turn, Lost> {
    match head {
        Piece::Skip => {
            let whole = seq_of(trail.alloc(), rest)?;
            trail.forward(Law::SeqSkip, &whole)?;
            Ok(Turn::Work(whole))
        }
        Piece::Stop => Ok(Turn::Head(stopped(trail, rest)?)),
        Piece::Seq(parts) => Ok(Turn::Head(flat(trail, parts, rest)?)),
        head => {
            if rest.is_empty() {
                let whole = head.into_proc(trail.alloc())?;
                trail.forward(Law::SeqOne, &whole)?;
                return Ok(Turn::Head(whole));
            }
            Ok(Turn::Head(before(trail, head, rest)?))
        }
    }
}

// What follows STOP goes.
fn stopped(trail: &mut Trail, rest: Vec<Proc>) -> Result<Proc, Lost> {
    let alloc = trail.alloc();
    if !rest.is_empty() {
        let whole = seq_of(alloc, alone(alloc, Proc::Stop)?)?;
        trail.forward(Law::SeqStop, &whole)?;
    }
    trail.forward(Law::SeqOne, &Proc::Stop)?;
    Ok(Proc::Stop)
}

// The parts of a SEQ and what follows it as one SEQ.
fn flat(trail: &mut Trail, parts: Vec<Proc>, rest: Vec<Proc>) -> Result<Proc, Lost> {
    let whole = joined(trail.alloc(), parts, rest)?;
    trail.forward(Law::SeqFlat, &whole)?;
    Ok(whole)
}

fn joined(alloc: Global, parts: Vec<Proc>, rest: Vec<Proc>) -> Result<Proc, Memory> {
    let mut parts = parts;
    for part in rest {
        parts.push(part)?;
    }
    seq_of(alloc, parts)
}

// An IF, an ALT or a declaration takes in what follows it.
fn before(trail: &mut Trail, head: Piece, rest: Vec<Proc>) -> Result<Proc, Lost> {
    let alloc = trail.alloc();
    match head {
        Piece::If(choices) => {
            let whole = choices_before(alloc, choices, rest.as_slice())?;
            trail.forward(Law::SeqIf, &whole)?;
            Ok(whole)
        }
        Piece::Alt(branches) => {
            let whole = branches_before(alloc, branches, rest.as_slice())?;
            trail.forward(Law::SeqAlt, &whole)?;
            Ok(whole)
        }
        Piece::Var(name, width, body) => {
            let (head, second) = in_two(trail, var_of(alloc, name, width, body)?, rest)?;
            variable_before(trail, head, second)
        }
        _ => Err(Lost::NoStep),
    }
}

fn choices_before(
    alloc: Global,
    choices: Vec<(Expr, Proc)>,
    rest: &[Proc],
) -> Result<Proc, Memory> {
    let mut made = Vec::new(alloc);
    for (condition, part) in choices {
        made.push((condition, followed(alloc, part, rest)?))?;
    }
    if_of(alloc, made)
}

fn branches_before(
    alloc: Global,
    branches: Vec<(Guard, Proc)>,
    rest: &[Proc],
) -> Result<Proc, Memory> {
    let mut made = Vec::new(alloc);
    for (guard, part) in branches {
        made.push((guard, followed(alloc, part, rest)?))?;
    }
    alt_of(alloc, made)
}

fn variable_before(trail: &mut Trail, head: Proc, second: Proc) -> Result<Proc, Lost> {
    let alloc = trail.alloc();
    let Piece::Var(name, width, body) = Piece::of(alloc, head)? else {
        return Err(Lost::NoStep);
    };
    let whole = var_of(alloc, name, width, seq_of_two(alloc, body, second)?)?;
    trail.backward(Law::VarLast, &whole)?;
    Ok(whole)
}
