//! A head form that isn't an ALT leaves a PAR of two.

use crate::around::Turn;
use crate::build::{alone, cut, par_of_two, parted};
use occ_derive_trail::{Law, Lost, Piece, Trail, if_of, par_of, seq_of, seq_of_two, var_of};
use occ_syntax::{Expr, Memory, Proc};
use std::alloc::Global;

/// The first part of a PAR leaves it.
pub(crate) fn first_leaves(trail: &mut Trail, head: Piece, other: Proc) -> Result<Turn, Lost> {
    match head {
        Piece::Skip => skip_leaves(trail, other),
        Piece::Stop => {
            let whole = par_of_two(trail.alloc(), other, Proc::Stop)?;
            trail.forward(Law::ParOrder, &whole)?;
            let (other, _) = parted(trail.alloc(), whole)?;
            stop_leaves(trail, other)
        }
        head => Ok(Turn::Head(begins(trail, head, other)?)),
    }
}

/// The second part of a PAR leaves it. The parts keep their order.
pub(crate) fn second_leaves(trail: &mut Trail, other: Proc, head: Piece) -> Result<Turn, Lost> {
    let alloc = trail.alloc();
    match head {
        Piece::Skip => skip_leaves(trail, other),
        Piece::Stop => stop_leaves(trail, other),
        head => {
            let head = head.into_proc(alloc)?;
            let whole = swapped(trail, par_of_two(alloc, other, head)?)?;
            let (head, other) = parted(alloc, whole)?;
            let whole = begins(trail, Piece::of(alloc, head)?, other)?;
            Ok(Turn::Head(back(trail, whole)?))
        }
    }
}

// The parts of a PAR of two in the other order.
fn swapped(trail: &mut Trail, whole: Proc) -> Result<Proc, Lost> {
    let alloc = trail.alloc();
    let (first, second) = parted(alloc, whole)?;
    let whole = par_of_two(alloc, second, first)?;
    trail.forward(Law::ParOrder, &whole)?;
    Ok(whole)
}

// SKIP leaves the other part alone.
fn skip_leaves(trail: &mut Trail, other: Proc) -> Result<Turn, Lost> {
    let alloc = trail.alloc();
    let whole = par_of(alloc, alone(alloc, other)?)?;
    trail.forward(Law::ParSkip, &whole)?;
    let Piece::Par(mut parts) = Piece::of(alloc, whole)? else {
        return Err(Lost::NoStep);
    };
    let Some(other) = parts.pop() else {
        return Err(Lost::NoStep);
    };
    trail.forward(Law::ParOne, &other)?;
    Ok(Turn::Work(other))
}

// The other part before STOP.
fn stop_leaves(trail: &mut Trail, other: Proc) -> Result<Turn, Lost> {
    let whole = seq_of_two(trail.alloc(), other, Proc::Stop)?;
    trail.forward(Law::ParStop, &whole)?;
    Ok(Turn::Work(whole))
}

// The whole begins as its first part does.
fn begins(trail: &mut Trail, head: Piece, other: Proc) -> Result<Proc, Lost> {
    let alloc = trail.alloc();
    match head {
        Piece::Seq(parts) => assigns(trail, parts, other),
        Piece::If(choices) => chooses(trail, choices, other),
        Piece::Var(name, width, body) => {
            let whole = var_of(alloc, name, width, par_of_two(alloc, body, other)?)?;
            trail.backward(Law::VarPar, &whole)?;
            Ok(whole)
        }
        _ => Err(Lost::NoStep),
    }
}

fn assigns(trail: &mut Trail, parts: Vec<Proc>, other: Proc) -> Result<Proc, Lost> {
    let alloc = trail.alloc();
    let Some((first, rest)) = cut(alloc, parts)? else {
        return Err(Lost::NoStep);
    };
    let beside = par_of_two(alloc, seq_of(alloc, rest)?, other)?;
    let whole = seq_of_two(alloc, first, beside)?;
    trail.forward(Law::ParAssign, &whole)?;
    Ok(whole)
}

fn chooses(trail: &mut Trail, choices: Vec<(Expr, Proc)>, other: Proc) -> Result<Proc, Lost> {
    let alloc = trail.alloc();
    let choices = with_else(trail, choices)?;
    let whole = choices_beside(alloc, choices, &other)?;
    trail.forward(Law::ParIf, &whole)?;
    Ok(whole)
}

fn choices_beside(alloc: Global, choices: Vec<(Expr, Proc)>, other: &Proc) -> Result<Proc, Memory> {
    let mut made = Vec::new(alloc);
    for (condition, part) in choices {
        made.push((condition, par_of_two(alloc, part, other.copy(alloc)?)?))?;
    }
    if_of(alloc, made)
}

// The IF at the first part has a last choice TRUE, which is STOP where there was none.
fn with_else(trail: &mut Trail, choices: Vec<(Expr, Proc)>) -> Result<Vec<(Expr, Proc)>, Lost> {
    if let Some((Expr::Bool(true), _)) = choices.last() {
        return Ok(choices);
    }
    let whole = and_stop(trail.alloc(), choices)?;
    trail.enter(0)?;
    trail.backward(Law::IfElseStop, &whole)?;
    trail.leave();
    match Piece::of(trail.alloc(), whole)? {
        Piece::If(choices) => Ok(choices),
        _ => Err(Lost::NoStep),
    }
}

fn and_stop(alloc: Global, choices: Vec<(Expr, Proc)>) -> Result<Proc, Memory> {
    let mut choices = choices;
    choices.push((Expr::Bool(true), Proc::Stop))?;
    if_of(alloc, choices)
}

// Behind what left the PAR its parts in their order again.
fn back(trail: &mut Trail, whole: Proc) -> Result<Proc, Lost> {
    let alloc = trail.alloc();
    match Piece::of(alloc, whole)? {
        Piece::Seq(parts) => {
            let (first, second) = parted(alloc, seq_of(alloc, parts)?)?;
            let second = swapped_at(trail, 1, second)?;
            Ok(seq_of_two(alloc, first, second)?)
        }
        Piece::If(choices) => choices_back(trail, choices),
        Piece::Var(name, width, body) => {
            let body = swapped_at(trail, 0, body)?;
            Ok(var_of(alloc, name, width, body)?)
        }
        _ => Err(Lost::NoStep),
    }
}

fn choices_back(trail: &mut Trail, choices: Vec<(Expr, Proc)>) -> Result<Proc, Lost> {
    let mut made = Vec::new(trail.alloc());
    let mut number: u32 = 0;
    for (condition, part) in choices {
        made.push((condition, swapped_at(trail, number, part)?))?;
        number = number.saturating_add(1);
    }
    Ok(if_of(trail.alloc(), made)?)
}

// The parts of the PAR at a place in the other order.
fn swapped_at(trail: &mut Trail, number: u32, part: Proc) -> Result<Proc, Lost> {
    trail.enter(number)?;
    let part = swapped(trail, part)?;
    trail.leave();
    Ok(part)
}
