//! A PAR of two ALTs.

use crate::build::par_of_two;
use occ_derive_trail::{Law, Lost, Trail, alt_of, seq_of_two};
use occ_syntax::{Expr, Exprs, Guard, Memory, Name, NameList, Op, Proc, Wait};
use std::alloc::Global;

/// The ALT of all that the two can do first: what the first does alone, what the second does alone, and where they meet.
pub(crate) fn meet(trail: &mut Trail, left: Proc, right: Proc) -> Result<Proc, Lost> {
    let whole = expanded(trail.alloc(), &left, &right)?;
    trail.forward(Law::ParExpand, &whole)?;
    Ok(whole)
}

fn expanded(alloc: Global, left: &Proc, right: &Proc) -> Result<Proc, Lost> {
    let Proc::Alt(first) = left else {
        return Err(Lost::NoStep);
    };
    let Proc::Alt(second) = right else {
        return Err(Lost::NoStep);
    };
    let mut made = Vec::new(alloc);
    for (guard, part) in first.items() {
        let part = par_of_two(alloc, part.copy(alloc)?, right.copy(alloc)?)?;
        made.push((guard.copy(alloc)?, part))?;
    }
    for (guard, part) in second.items() {
        let part = par_of_two(alloc, left.copy(alloc)?, part.copy(alloc)?)?;
        made.push((guard.copy(alloc)?, part))?;
    }
    for branch in first.items() {
        meetings(alloc, &mut made, branch, second.items())?;
    }
    Ok(alt_of(alloc, made)?)
}

// Where a branch communicates with each of others.
fn meetings(
    alloc: Global,
    made: &mut Vec<(Guard, Proc)>,
    branch: &(Guard, Proc),
    others: &[(Guard, Proc)],
) -> Result<(), Memory> {
    let (guard, part) = branch;
    for (other, beside) in others {
        if let Some((var, value)) = passed(&guard.wait, &other.wait) {
            let first = assignment(alloc, var, value)?;
            let both = par_of_two(alloc, part.copy(alloc)?, beside.copy(alloc)?)?;
            made.push((
                together(alloc, guard, other)?,
                seq_of_two(alloc, first, both)?,
            ))?;
        }
    }
    Ok(())
}

// What one outputs and the other inputs on one channel: the variable that takes the value, and the value.
fn passed<'a>(left: &'a Wait, right: &'a Wait) -> Option<(Name, &'a Expr)> {
    match left {
        Wait::Skip => None,
        Wait::Put { chan, value } => match right {
            Wait::Get { chan: other, var } if chan == other => Some((*var, value)),
            _ => None,
        },
        Wait::Get { chan, var } => match right {
            Wait::Put { chan: other, value } if chan == other => Some((*var, value)),
            _ => None,
        },
    }
}

fn assignment(alloc: Global, var: Name, value: &Expr) -> Result<Proc, Memory> {
    let mut vars = NameList::new(alloc);
    vars.push(var)?;
    let mut values = Exprs::new(alloc);
    values.push(value.copy(alloc)?)?;
    Ok(Proc::Assign { vars, values })
}

// The guard that is ready where both conditions hold.
fn together(alloc: Global, left: &Guard, right: &Guard) -> Result<Guard, Memory> {
    let first = Box::new(alloc, left.condition.copy(alloc)?)?;
    let second = Box::new(alloc, right.condition.copy(alloc)?)?;
    Ok(Guard {
        condition: Expr::Two(Op::And, first, second),
        wait: Wait::Skip,
    })
}
