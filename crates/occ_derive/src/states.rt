//! The initial states of a program.

use crate::build::{Cases, Pairs, add, is_at, joined, zeros};
use crate::inputs::last_of;
use occ_derive_unify::{assign_of, constant};
use occ_syntax::{Expr, Memory, Name, Op, Width};
use std::alloc::Global;

/// The values of variables, in their order.
type Values = Vec<u8>;

fn followed_by(alloc: Global, values: &[u8], value: u8) -> Result<Values, Memory> {
    let mut all = Values::from_slice(alloc, values)?;
    add(&mut all, value)?;
    Ok(all)
}

/// These values, each with each value of a further variable behind it.
fn widened(alloc: Global, states: &[Values], width: Width) -> Result<Vec<Values>, Memory> {
    let mut all = Vec::new(alloc);
    for state in states {
        for value in 0..=last_of(width) {
            add(&mut all, followed_by(alloc, state.as_slice(), value)?)?;
        }
    }
    Ok(all)
}

/// The values that variables can have together, in increasing order from the left.
fn states(alloc: Global, vars: &[(Name, Width)]) -> Result<Vec<Values>, Memory> {
    let mut all = Vec::new(alloc);
    add(&mut all, Values::new(alloc))?;
    for (_, width) in vars {
        all = widened(alloc, all.as_slice(), *width)?;
    }
    Ok(all)
}

/// The condition that variables have these values.
fn condition(alloc: Global, vars: &[(Name, Width)], values: &[u8]) -> Result<Expr, Memory> {
    let mut so_far = None;
    for ((name, width), value) in vars.iter().zip(values) {
        let one = is_at(alloc, *name, *width, *value)?;
        so_far = match so_far {
            None => Some(one),
            Some(before) => {
                let left = Box::new(alloc, before)?;
                let right = Box::new(alloc, one)?;
                Some(Expr::Two(Op::And, left, right))
            }
        };
    }
    match so_far {
        Some(condition) => Ok(condition),
        None => Ok(Expr::Bool(true)),
    }
}

fn valued(alloc: Global, vars: &[(Name, Width)], values: &[u8]) -> Result<Pairs, Memory> {
    let mut pairs = Pairs::new(alloc);
    for ((name, width), value) in vars.iter().zip(values) {
        add(&mut pairs, (*name, constant(*width, *value)))?;
    }
    Ok(pairs)
}

/// For each initial state, in order, its condition, and the assignment of its values and of FALSE or 0 to other variables.
pub(crate) fn by_states(
    alloc: Global,
    vars: &[(Name, Width)],
    others: &[(Name, Width)],
) -> Result<Cases, Memory> {
    let mut table = Cases::new(alloc);
    for values in &states(alloc, vars)? {
        let values = values.as_slice();
        let pairs = joined(valued(alloc, vars, values)?, zeros(alloc, others)?)?;
        let part = assign_of(alloc, pairs.as_slice())?;
        add(&mut table, (condition(alloc, vars, values)?, part))?;
    }
    Ok(table)
}
