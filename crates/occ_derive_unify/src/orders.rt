use occ_behaviour::place_in;
use occ_syntax::{Expr, Exprs, Guard, Memory, Name, Proc, Scope, Wait};
use std::alloc::Global;
use std::cmp::Ordering;

/// Where a branch belongs: by a number first, and then by a list of numbers.
#[derive(Drop)]
pub(crate) struct Key {
    first: u64,
    then: Vec<u64>,
}

const ACCEPTANCES: u64 = 1 << 32;

const ENDS: u64 = 1 << 33;

impl Key {
    /// The place of a number alone.
    pub(crate) fn of(alloc: Global, first: u64) -> Key {
        Key {
            first,
            then: Vec::new(alloc),
        }
    }

    /// The place directly behind all that have this number alone.
    pub(crate) fn behind(alloc: Global, first: u64) -> Result<Key, Memory> {
        let mut then = Vec::with_capacity(alloc, 1)?;
        then.push(0)?;
        Ok(Key { first, then })
    }

    /// Which of two keys comes first.
    pub(crate) fn order(&self, other: &Key) -> Ordering {
        let first = self.first.cmp(&other.first);
        first.then(self.then.as_slice().cmp(other.then.as_slice()))
    }
}

/// The rank of a guard's event among all events: by its channel's place among the parameters, and then by its value, where
/// an input stands for its first. None where it waits for nothing.
pub(crate) fn rank(params: &Scope, guard: &Guard) -> Option<u64> {
    match &guard.wait {
        Wait::Skip => None,
        Wait::Get { chan, var: _ } => Some(event(params, *chan, 0)),
        Wait::Put { chan, value } => Some(event(params, *chan, constant(value))),
    }
}

fn event(params: &Scope, chan: Name, value: u8) -> u64 {
    let place = place_in(params.items(), chan) as u64;
    place.saturating_mul(256).saturating_add(u64::from(value))
}

fn constant(value: &Expr) -> u8 {
    match value {
        Expr::Word { bits: _, value } => *value,
        Expr::Bool(truth) => u8::from(*truth),
        _ => 0,
    }
}

/// The branches of an acceptance; None where a branch is no acceptance.
pub(crate) fn accepted(branch: &(Guard, Proc)) -> Option<&[(Guard, Proc)]> {
    match &branch.0.wait {
        Wait::Skip => match &branch.1 {
            Proc::Alt(list) => Some(list.items()),
            _ => None,
        },
        _ => None,
    }
}

/// The ranks of the events for which some branches wait, in order.
pub(crate) fn ranks(
    alloc: Global,
    params: &Scope,
    branches: &[(Guard, Proc)],
) -> Result<Vec<u64>, Memory> {
    let mut ranks = Vec::with_capacity(alloc, branches.len())?;
    for (guard, _) in branches {
        if let Some(rank) = rank(params, guard) {
            ranks.push(rank)?;
        }
    }
    Ok(ranks)
}

/// What follows the event of that rank in some branches; None where none waits for it.
pub(crate) fn following<'a>(
    params: &Scope,
    branches: &'a [(Guard, Proc)],
    wanted: u64,
) -> Option<&'a Proc> {
    for (guard, part) in branches {
        if rank(params, guard) == Some(wanted) {
            return Some(part);
        }
    }
    None
}

/// Where a branch belongs in a normal program: events first, then acceptances, then ends.
pub(crate) fn key_of(alloc: Global, params: &Scope, branch: &(Guard, Proc)) -> Result<Key, Memory> {
    if let Some(rank) = rank(params, &branch.0) {
        return Ok(Key::of(alloc, rank));
    }
    match &branch.1 {
        Proc::Alt(list) => Ok(Key {
            first: ACCEPTANCES,
            then: ranks(alloc, params, list.items())?,
        }),
        Proc::Assign { vars: _, values } => Ok(Key {
            first: ENDS,
            then: state(alloc, values)?,
        }),
        _ => Ok(Key::of(alloc, ENDS)),
    }
}

fn state(alloc: Global, values: &Exprs) -> Result<Vec<u64>, Memory> {
    let mut state = Vec::with_capacity(alloc, values.items().len())?;
    for value in values.items() {
        state.push(u64::from(constant(value)))?;
    }
    Ok(state)
}
