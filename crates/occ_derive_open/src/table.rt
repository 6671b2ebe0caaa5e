use crate::row::choices_of_if;
use occ_derive_expose::{Law, Lost, Trail, if_of};
use occ_syntax::{Expr, Memory, Op, Proc};
use std::alloc::Global;

type Rows = Vec<(Expr, Proc)>;

/// How often a list that fits in memory can be halved, at the most.
const DEEPEST: u32 = 64;

/// An assignment becomes the IF of a table: of conditions, of which in every state one is TRUE, each with an assignment that does the
/// same where it is TRUE.
pub fn cases(trail: &mut Trail, table: &[(Expr, Proc)], part: Proc) -> Result<Proc, Lost> {
    let alloc = trail.alloc();
    let choices = cases_or_else(trail, table, part, DEEPEST)?;
    let choices = cut(trail, choices)?;
    Ok(if_of(alloc, choices)?)
}

/// The choices of the table and a last one, TRUE, with the assignment itself. By halves.
fn cases_or_else(
    trail: &mut Trail,
    table: &[(Expr, Proc)],
    part: Proc,
    depth: u32,
) -> Result<Rows, Lost> {
    let Some(depth) = depth.checked_sub(1) else {
        return Err(Lost::NoStep);
    };
    match table {
        [] => Err(Lost::NoStep),
        [(condition, other)] => one_case(trail, condition, other, part),
        _ => {
            let half = table.len() / 2;
            let choices = cases_or_else(trail, &table[..half], part, depth)?;
            let (choices, last) = without_last(choices)?;
            let Ok(place) = u32::try_from(choices.len()) else {
                return Err(Lost::NoStep);
            };
            trail.enter(place)?;
            let more = cases_or_else(trail, &table[half..], last, depth)?;
            trail.leave();
            Ok(merged(trail, choices, more)?)
        }
    }
}

/// The choices without the last one, and its process.
fn without_last(choices: Rows) -> Result<(Rows, Proc), Lost> {
    let mut front = choices;
    match front.pop() {
        Some((_, last)) => Ok((front, last)),
        None => Err(Lost::NoStep),
    }
}

/// An assignment becomes an IF of one row and of itself.
fn one_case(trail: &mut Trail, condition: &Expr, other: &Proc, part: Proc) -> Result<Rows, Lost> {
    let alloc = trail.alloc();
    let copies = if_else(alloc, condition, part.copy(alloc)?, part.copy(alloc)?)?;
    trail.forward(Law::IfCopy, &copies)?;
    let whole = if_else(alloc, condition, other.copy(alloc)?, part)?;
    trail.forward(Law::IfUnder, &whole)?;
    Ok(choices_of_if(trail, whole)?)
}

fn if_else(alloc: Global, condition: &Expr, first: Proc, last: Proc) -> Result<Proc, Memory> {
    let mut choices = Vec::new(alloc);
    choices.push((condition.copy(alloc)?, first))?;
    choices.push((Expr::Bool(true), last))?;
    if_of(alloc, choices)
}

/// The IF in the last choice, TRUE, of an IF gives it its choices.
fn merged(trail: &mut Trail, choices: Rows, more: Rows) -> Result<Rows, Lost> {
    let count = choices.len();
    let all = nested(trail, choices, more)?;
    let all = cut(trail, all)?;
    Ok(plain(trail, all, count)?)
}

/// The choices in front, those of the IF in the last choice, each asking for TRUE as well, and a last one that stops.
fn nested(trail: &mut Trail, choices: Rows, more: Rows) -> Result<Rows, Lost> {
    let alloc = trail.alloc();
    let mut all = choices;
    for (condition, part) in more {
        let left = Box::new(alloc, Expr::Bool(true))?;
        let right = Box::new(alloc, condition)?;
        all.push((Expr::Two(Op::And, left, right), part))?;
    }
    all.push((Expr::Bool(true), Proc::Stop))?;
    let whole = if_of(alloc, all)?;
    trail.forward(Law::IfNest, &whole)?;
    Ok(choices_of_if(trail, whole)?)
}

/// The last choice goes, where in every state one in front of it is taken.
fn cut(trail: &mut Trail, choices: Rows) -> Result<Rows, Lost> {
    let alloc = trail.alloc();
    let (front, _) = without_last(choices)?;
    let whole = if_of(alloc, front)?;
    trail.forward(Law::IfCut, &whole)?;
    Ok(choices_of_if(trail, whole)?)
}

/// The conditions behind a place become their second operands.
fn plain(trail: &mut Trail, choices: Rows, count: usize) -> Result<Rows, Lost> {
    let alloc = trail.alloc();
    let mut all = choices;
    if count > all.len() {
        return Err(Lost::NoStep);
    }
    let back = all.split_off(count)?;
    for (condition, part) in back {
        all.push((second_of(alloc, condition)?, part))?;
    }
    let whole = if_of(alloc, all)?;
    trail.forward(Law::Expr, &whole)?;
    Ok(choices_of_if(trail, whole)?)
}

fn second_of(alloc: Global, condition: Expr) -> Result<Expr, Memory> {
    match &condition {
        Expr::Two(_, _, right) => right.copy(alloc),
        Expr::Var(_) | Expr::Word { .. } | Expr::Bool(_) | Expr::Not(_) | Expr::Flip(_) => {
            Ok(condition)
        }
    }
}
