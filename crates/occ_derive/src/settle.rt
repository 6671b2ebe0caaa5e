//! Configurations worked until they wait for events.

use crate::build::{Branches, add, alt_by, branches_in, is_of_events};
use occ_derive_open::{advance, open};
use occ_derive_unify::{Frame, Lost, Piece, Trail, alt_of, unseen};
use occ_script_back::Law;
use occ_syntax::{Guard, Memory, Proc, Wait, same_expr, same_proc};
use std::alloc::Global;
use std::mem::replace;

/// The most branches that one ALT has on the way.
const MOST: u32 = 1_000_000;

/// Whether a process is an end: the last assignment, or SKIP where no variable is known.
fn is_end(part: &Proc) -> bool {
    matches!(part, Proc::Assign { .. } | Proc::Skip)
}

fn same_wait(left: &Wait, right: &Wait) -> bool {
    match (left, right) {
        (Wait::Skip, Wait::Skip) => true,
        (Wait::Get { chan, var }, Wait::Get { chan: c, var: v }) => chan == c && var == v,
        (Wait::Put { chan, value }, Wait::Put { chan: c, value: v }) => {
            chan == c && same_expr(value, v)
        }
        _ => false,
    }
}

fn same_branch(left: &(Guard, Proc), right: &(Guard, Proc)) -> bool {
    let (guard, process) = left;
    let (other, others) = right;
    same_wait(&guard.wait, &other.wait)
        && same_expr(&guard.condition, &other.condition)
        && same_proc(process, others)
}

fn is_among(branch: &(Guard, Proc), branches: &[(Guard, Proc)]) -> bool {
    for other in branches {
        if same_branch(other, branch) {
            return true;
        }
    }
    false
}

/// The first branch that is the same as one before it.
fn first_twice(branches: &[(Guard, Proc)]) -> Option<usize> {
    for place in 0..branches.len() {
        if is_among(&branches[place], &branches[..place]) {
            return Some(place);
        }
    }
    None
}

/// Whether a branch is settled: it waits for an event, or goes on at once as an acceptance or an end.
fn is_settled(branch: &(Guard, Proc)) -> bool {
    let (guard, process) = branch;
    !matches!(guard.wait, Wait::Skip) || matches!(process, Proc::Alt(_)) || is_end(process)
}

/// The first branch that isn't settled.
fn first_open(branches: &[(Guard, Proc)]) -> Option<usize> {
    for place in 0..branches.len() {
        if !is_settled(&branches[place]) {
            return Some(place);
        }
    }
    None
}

/// Takes out each branch that is the same as one before it.
fn once(trail: &mut Trail, branches: Branches) -> Result<Branches, Lost> {
    let mut branches = branches;
    for _ in 0..MOST {
        let Some(place) = first_twice(branches.as_slice()) else {
            return Ok(branches);
        };
        if place < branches.len() {
            let _ = branches.remove(place);
        }
        branches = alt_by(trail, Law::AltTwice, branches)?;
    }
    Err(Lost::NoStep)
}

/// Adds branches at the end.
fn append(all: &mut Branches, more: Branches) -> Result<(), Memory> {
    for branch in more {
        all.push(branch)?;
    }
    Ok(())
}

/// The branches with those of an ALT in the place of one.
fn taken_in(
    alloc: Global,
    branches: Branches,
    at: usize,
    inner: Branches,
) -> Result<Branches, Memory> {
    let mut all = Vec::new(alloc);
    let mut inner = inner;
    for (place, branch) in branches.into_iter().enumerate() {
        if place != at {
            all.push(branch)?;
        } else {
            append(&mut all, replace(&mut inner, Vec::new(alloc)))?;
        }
    }
    Ok(all)
}

/// Puts what the configuration of a branch became into its place: its own branches, where one of them goes on at once.
fn put_back(
    trail: &mut Trail,
    branches: Branches,
    place: usize,
    part: Proc,
) -> Result<Branches, Lost> {
    let alloc = trail.alloc();
    let mut branches = branches;
    match Piece::of(alloc, part)? {
        Piece::Alt(inner) => {
            if is_of_events(inner.as_slice()) {
                put(&mut branches, place, alt_of(alloc, inner)?);
                return Ok(branches);
            }
            let all = taken_in(alloc, branches, place, inner)?;
            alt_by(trail, Law::AltFlat, all)
        }
        piece => {
            put(&mut branches, place, piece.into_proc(alloc)?);
            Ok(branches)
        }
    }
}

/// Puts a process behind the guard of a branch, and gives the one that stood there.
fn put(branches: &mut Branches, place: usize, part: Proc) -> Proc {
    if place < branches.len() {
        replace(&mut branches[place].1, part)
    } else {
        part
    }
}

/// The branches of an ALT, each of which waits or goes on at once with a configuration or what is settled, made those of a settled
/// ALT.
#[cycle(settle)]
fn settle_all(
    trail: &mut Trail,
    frame: &Frame,
    branches: Branches,
    fuel: u32,
) -> Result<Branches, Lost> {
    let Some(fuel) = fuel.checked_sub(1) else {
        return Err(Lost::NoStep);
    };
    let mut branches = once(trail, branches)?;
    for _ in 0..MOST {
        let Some(place) = first_open(branches.as_slice()) else {
            return Ok(branches);
        };
        let Ok(number) = u32::try_from(place) else {
            return Err(Lost::NoStep);
        };
        let part = put(&mut branches, place, Proc::Skip);
        trail.enter(number)?;
        let part = settle_one(trail, frame, part, fuel)?;
        trail.leave();
        let next = put_back(trail, branches, place, part)?;
        branches = once(trail, next)?;
    }
    Err(Lost::NoStep)
}

/// A configuration made a settled ALT, or an end.
#[cycle(settle)]
fn settle_one(trail: &mut Trail, frame: &Frame, part: Proc, fuel: u32) -> Result<Proc, Lost> {
    let Some(fuel) = fuel.checked_sub(1) else {
        return Err(Lost::NoStep);
    };
    let alloc = trail.alloc();
    let part = advance(trail, frame, part)?;
    if is_end(&part) {
        return Ok(part);
    }
    let part = open(trail, frame, part)?;
    let branches = settle_all(trail, frame, branches_in(alloc, part)?, fuel)?;
    Ok(alt_of(alloc, branches)?)
}

/// A process as the one branch of an ALT.
fn as_branch(trail: &mut Trail, part: Proc) -> Result<Branches, Lost> {
    let alloc = trail.alloc();
    let mut branches = Vec::new(alloc);
    add(&mut branches, (unseen(), part))?;
    let part = alt_of(alloc, branches)?;
    trail.backward(Law::AltSkip, &part)?;
    branches_in(alloc, part)
}

/// A superposition made the branches of a settled ALT.
pub(crate) fn settle(
    trail: &mut Trail,
    frame: &Frame,
    part: Proc,
    fuel: u32,
) -> Result<Branches, Lost> {
    match Piece::of(trail.alloc(), part)? {
        Piece::Alt(branches) => settle_all(trail, frame, branches, fuel),
        piece => {
            let part = piece.into_proc(trail.alloc())?;
            let part = settle_one(trail, frame, part, fuel)?;
            match Piece::of(trail.alloc(), part)? {
                Piece::Alt(branches) => Ok(branches),
                piece => {
                    let part = piece.into_proc(trail.alloc())?;
                    as_branch(trail, part)
                }
            }
        }
    }
}
