//! Small parts of programs, and parts taken apart.

use occ_derive_unify::{Frame, Lost, Piece, Trail, alt_of, assign_of, constant};
use occ_script_back::Law;
use occ_syntax::{Expr, Guard, Memory, Name, Op, Proc, Procs, Wait, Width};
use std::alloc::Global;

/// Variables with their values, in order.
pub(crate) type Pairs = Vec<(Name, Expr)>;

/// Choices in order.
pub(crate) type Cases = Vec<(Expr, Proc)>;

/// Branches in order.
pub(crate) type Branches = Vec<(Guard, Proc)>;

/// The SEQ of one part.
pub(crate) fn alone(alloc: Global, part: Proc) -> Result<Proc, Memory> {
    let mut parts = Procs::new(alloc);
    parts.push(part)?;
    Ok(Proc::Seq(parts))
}

/// The pairs that give each variable its own value.
pub(crate) fn identities(alloc: Global, vars: &[(Name, Width)]) -> Result<Pairs, Memory> {
    let mut pairs = Vec::new(alloc);
    for (name, _) in vars {
        pairs.push((*name, Expr::Var(*name)))?;
    }
    Ok(pairs)
}

/// The pairs that give each variable FALSE or 0.
pub(crate) fn zeros(alloc: Global, vars: &[(Name, Width)]) -> Result<Pairs, Memory> {
    let mut pairs = Vec::new(alloc);
    for (name, width) in vars {
        pairs.push((*name, constant(*width, 0)))?;
    }
    Ok(pairs)
}

/// These pairs and then those.
pub(crate) fn joined(mut first: Pairs, second: Pairs) -> Result<Pairs, Memory> {
    for pair in second {
        first.push(pair)?;
    }
    Ok(first)
}

/// The assignment that gives each variable for inputs FALSE or 0, with which every process ends while it is worked; None where there
/// are no such variables.
pub(crate) fn clearing(alloc: Global, frame: &Frame) -> Result<Option<Proc>, Memory> {
    if frame.targets.is_empty() {
        return Ok(None);
    }
    let pairs = zeros(alloc, frame.targets.as_slice())?;
    Ok(Some(assign_of(alloc, pairs.as_slice())?))
}

/// The condition that a variable has a value.
pub(crate) fn is_at(alloc: Global, name: Name, width: Width, value: u8) -> Result<Expr, Memory> {
    let left = Box::new(alloc, Expr::Var(name))?;
    let right = Box::new(alloc, constant(width, value))?;
    Ok(Expr::Two(Op::Equal, left, right))
}

/// Whether all branches wait for events.
pub(crate) fn is_of_events(branches: &[(Guard, Proc)]) -> bool {
    for (guard, _) in branches {
        if matches!(guard.wait, Wait::Skip) {
            return false;
        }
    }
    true
}

/// The two parts of a SEQ.
pub(crate) fn both_of(alloc: Global, part: Proc) -> Result<(Proc, Proc), Lost> {
    let Piece::Seq(mut parts) = Piece::of(alloc, part)? else {
        return Err(Lost::NoStep);
    };
    let last = parts.pop();
    let first = parts.pop();
    match (first, last) {
        (Some(first), Some(last)) => Ok((first, last)),
        _ => Err(Lost::NoStep),
    }
}

/// The branches of an ALT.
pub(crate) fn branches_in(alloc: Global, part: Proc) -> Result<Branches, Lost> {
    match Piece::of(alloc, part)? {
        Piece::Alt(branches) => Ok(branches),
        _ => Err(Lost::NoStep),
    }
}

/// The choices of an IF.
pub(crate) fn choices_in(alloc: Global, part: Proc) -> Result<Cases, Lost> {
    match Piece::of(alloc, part)? {
        Piece::If(choices) => Ok(choices),
        _ => Err(Lost::NoStep),
    }
}

/// A law used forward makes the present part the ALT of these branches.
pub(crate) fn alt_by(trail: &mut Trail, law: Law, branches: Branches) -> Result<Branches, Lost> {
    let alloc = trail.alloc();
    let part = alt_of(alloc, branches)?;
    trail.forward(law, &part)?;
    branches_in(alloc, part)
}

/// Adds an item at the end.
pub(crate) fn add<T: Drop>(list: &mut Vec<T>, item: T) -> Result<(), Memory> {
    list.push(item)?;
    Ok(())
}
