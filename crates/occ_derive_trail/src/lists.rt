use occ_syntax::{Alternatives, Choices, Expr, Guard, Memory, Proc, Procs, Wait};
use std::alloc::Global;

/// The processes of a list, taken out of it.
pub fn parts_of(alloc: Global, mut list: Procs) -> Result<Vec<Proc>, Memory> {
    let count = list.items().len();
    let mut parts = Vec::with_capacity(alloc, count)?;
    for place in 0..count {
        parts.push(list.exchange(place, Proc::Skip))?;
    }
    Ok(parts)
}

/// The choices of a list, taken out of it.
pub fn choices_of(alloc: Global, mut list: Choices) -> Result<Vec<(Expr, Proc)>, Memory> {
    let count = list.items().len();
    let mut choices = Vec::with_capacity(alloc, count)?;
    for place in 0..count {
        choices.push(list.exchange(place, (Expr::Bool(true), Proc::Skip)))?;
    }
    Ok(choices)
}

/// The alternatives of a list, taken out of it.
pub fn branches_of(alloc: Global, mut list: Alternatives) -> Result<Vec<(Guard, Proc)>, Memory> {
    let count = list.items().len();
    let mut branches = Vec::with_capacity(alloc, count)?;
    for place in 0..count {
        let guard = Guard {
            condition: Expr::Bool(true),
            wait: Wait::Skip,
        };
        branches.push(list.exchange(place, (guard, Proc::Skip)))?;
    }
    Ok(branches)
}
