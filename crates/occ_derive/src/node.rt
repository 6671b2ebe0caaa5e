//! Nodes: what stands between two events, worked until it is one ALT of events, acceptances and ends.

use crate::build::{Branches, Cases, add, both_of, branches_in, clearing, is_of_events};
use crate::ending::{behind_identities, ended};
use crate::frame::View;
use crate::inputs::{by_cases, by_values, told};
use crate::settle::settle;
use occ_derive_unify::{Frame, Lost, Piece, Trail, alt_of, if_of, merge, seq_of_two, unify};
use occ_script_back::Law;
use occ_syntax::{Guard, Name, Proc, Wait};

/// An ALT, each of whose processes clears the variables for inputs last, as a SEQ that does so last.
fn cleared_alt(trail: &mut Trail, frame: &Frame, branches: Branches) -> Result<Proc, Lost> {
    let alloc = trail.alloc();
    let Some(last) = clearing(alloc, frame)? else {
        return Ok(alt_of(alloc, branches)?);
    };
    let mut fronts = Branches::new(alloc);
    for (guard, process) in branches {
        let (front, _) = both_of(alloc, process)?;
        add(&mut fronts, (guard, front))?;
    }
    let front = alt_of(alloc, fronts)?;
    let part = seq_of_two(alloc, front, last)?;
    trail.backward(Law::SeqAlt, &part)?;
    Ok(part)
}

/// The same of an IF.
pub(crate) fn cleared_if(trail: &mut Trail, frame: &Frame, choices: Cases) -> Result<Proc, Lost> {
    let alloc = trail.alloc();
    let Some(last) = clearing(alloc, frame)? else {
        return Ok(if_of(alloc, choices)?);
    };
    let mut fronts = Cases::new(alloc);
    for (condition, process) in choices {
        let (front, _) = both_of(alloc, process)?;
        add(&mut fronts, (condition, front))?;
    }
    let front = if_of(alloc, fronts)?;
    let part = seq_of_two(alloc, front, last)?;
    trail.backward(Law::SeqIf, &part)?;
    Ok(part)
}

/// What follows an input made an IF over the values, each of whose choices is a node, and clearing behind it.
#[cycle(node)]
fn behind_input(
    trail: &mut Trail,
    view: &View,
    var: Name,
    part: Proc,
    fuel: u32,
) -> Result<Proc, Lost> {
    let Some(fuel) = fuel.checked_sub(1) else {
        return Err(Lost::NoStep);
    };
    let Some(width) = view.frame.width_of(var) else {
        return Err(Lost::NoStep);
    };
    let alloc = trail.alloc();
    let part = behind_identities(trail, &[(var, width)], part)?;
    let table = by_values(alloc, var, width)?;
    let mut all = Cases::new(alloc);
    let mut place: u32 = 0;
    for (condition, part) in by_cases(trail, part, table)? {
        trail.enter(place)?;
        let part = told(trail, &view.frame, part)?;
        let part = node(trail, view, part, fuel)?;
        trail.leave();
        add(&mut all, (condition, part))?;
        place = place.saturating_add(1);
    }
    cleared_if(trail, &view.frame, all)
}

/// What stands behind a guard of a settled ALT, worked.
#[cycle(node)]
fn behind(
    trail: &mut Trail,
    view: &View,
    guard: &Guard,
    part: Proc,
    fuel: u32,
) -> Result<Proc, Lost> {
    let Some(fuel) = fuel.checked_sub(1) else {
        return Err(Lost::NoStep);
    };
    match &guard.wait {
        Wait::Put { .. } => node(trail, view, part, fuel),
        Wait::Get { chan: _, var } => behind_input(trail, view, *var, part, fuel),
        Wait::Skip => match Piece::of(trail.alloc(), part)? {
            Piece::Alt(branches) => behind_all(trail, view, branches, fuel),
            piece => {
                let part = piece.into_proc(trail.alloc())?;
                ended(trail, &view.frame, part)
            }
        },
    }
}

/// What stands behind each guard of a settled ALT, worked, and clearing behind the ALT.
#[cycle(node)]
fn behind_all(trail: &mut Trail, view: &View, branches: Branches, fuel: u32) -> Result<Proc, Lost> {
    let Some(fuel) = fuel.checked_sub(1) else {
        return Err(Lost::NoStep);
    };
    let mut all = Branches::new(trail.alloc());
    let mut place: u32 = 0;
    for (guard, part) in branches {
        trail.enter(place)?;
        let part = behind(trail, view, &guard, part, fuel)?;
        trail.leave();
        add(&mut all, (guard, part))?;
        place = place.saturating_add(1);
    }
    cleared_alt(trail, &view.frame, all)
}

/// A superposition made a node, and clearing behind it where there are variables for inputs.
#[cycle(node)]
pub(crate) fn node(trail: &mut Trail, view: &View, part: Proc, fuel: u32) -> Result<Proc, Lost> {
    let Some(fuel) = fuel.checked_sub(1) else {
        return Err(Lost::NoStep);
    };
    let alloc = trail.alloc();
    let branches = settle(trail, &view.frame, part, fuel)?;
    let part = if is_of_events(branches.as_slice()) {
        merge(trail, &view.params, alt_of(alloc, branches)?)?
    } else {
        unify(trail, &view.params, alt_of(alloc, branches)?)?
    };
    behind_all(trail, view, branches_in(alloc, part)?, fuel)
}
