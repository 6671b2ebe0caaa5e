//! The last assignment of a process, with what all processes end with taken out of it.

use crate::build::{Pairs, alone, identities, joined, zeros};
use occ_derive_unify::{Frame, Lost, Piece, Trail, assign_of, seq_of_two};
use occ_script_back::Law;
use occ_syntax::{Name, Proc, Width};

/// Leaves out the last pairs of an assignment, from its end, until so many are left. Each gives a variable its own value.
fn shortened(trail: &mut Trail, pairs: Pairs, count: usize) -> Result<Proc, Lost> {
    let alloc = trail.alloc();
    let mut pairs = pairs;
    let surplus = pairs.len().saturating_sub(count);
    for _ in 0..surplus {
        let _ = pairs.pop();
        let part = assign_of(alloc, pairs.as_slice())?;
        trail.backward(Law::AssignPad, &part)?;
    }
    Ok(assign_of(alloc, pairs.as_slice())?)
}

/// `ts, vs := 0, vs` made of `vs, ts := vs, 0`, and then `ts := 0`.
fn turned(
    trail: &mut Trail,
    params: &[(Name, Width)],
    targets: &[(Name, Width)],
) -> Result<Proc, Lost> {
    let alloc = trail.alloc();
    let turned = joined(zeros(alloc, targets)?, identities(alloc, params)?)?;
    let part = assign_of(alloc, turned.as_slice())?;
    trail.forward(Law::AssignOrder, &part)?;
    shortened(trail, turned, targets.len())
}

/// `vs, ts := es, 0` as `SEQ(vs := es, ts := 0)`.
fn parted(trail: &mut Trail, frame: &Frame, ends: Pairs) -> Result<Proc, Lost> {
    let alloc = trail.alloc();
    let params = frame.params.as_slice();
    let targets = frame.targets.as_slice();
    let mut ends = ends;
    ends.truncate(params.len());
    let first = joined(ends, identities(alloc, targets)?)?;
    let second = joined(identities(alloc, params)?, zeros(alloc, targets)?)?;
    let one = assign_of(alloc, first.as_slice())?;
    let other = assign_of(alloc, second.as_slice())?;
    let part = seq_of_two(alloc, one, other)?;
    trail.backward(Law::AssignJoin, &part)?;
    trail.enter(0)?;
    let ends = shortened(trail, first, params.len())?;
    trail.leave();
    trail.enter(1)?;
    let clearing = turned(trail, params, targets)?;
    trail.leave();
    Ok(seq_of_two(alloc, ends, clearing)?)
}

/// `P` as `SEQ(SKIP, P)`.
fn behind_skip(trail: &mut Trail, part: Proc) -> Result<Proc, Lost> {
    let alloc = trail.alloc();
    let part = alone(alloc, part)?;
    trail.backward(Law::SeqOne, &part)?;
    let Piece::Seq(mut parts) = Piece::of(alloc, part)? else {
        return Err(Lost::NoStep);
    };
    let Some(last) = parts.pop() else {
        return Err(Lost::NoStep);
    };
    let part = seq_of_two(alloc, Proc::Skip, last)?;
    trail.backward(Law::SeqSkip, &part)?;
    Ok(part)
}

/// `P` as `SEQ(xs := xs, P)`.
pub(crate) fn behind_identities(
    trail: &mut Trail,
    vars: &[(Name, Width)],
    part: Proc,
) -> Result<Proc, Lost> {
    let alloc = trail.alloc();
    let part = behind_skip(trail, part)?;
    if vars.is_empty() {
        return Ok(part);
    }
    let (_, last) = crate::build::both_of(alloc, part)?;
    let first = assign_of(alloc, identities(alloc, vars)?.as_slice())?;
    trail.enter(0)?;
    trail.backward(Law::AssignId, &first)?;
    trail.leave();
    Ok(seq_of_two(alloc, first, last)?)
}

/// An end as an assignment to the parameter variables alone, and behind it, where there are variables for inputs, the one that
/// clears them.
pub(crate) fn ended(trail: &mut Trail, frame: &Frame, part: Proc) -> Result<Proc, Lost> {
    if frame.targets.is_empty() {
        return Ok(part);
    }
    if frame.params.is_empty() {
        return behind_skip(trail, part);
    }
    match Piece::of(trail.alloc(), part)? {
        Piece::Assign(ends) => parted(trail, frame, ends),
        _ => Err(Lost::NoStep),
    }
}
