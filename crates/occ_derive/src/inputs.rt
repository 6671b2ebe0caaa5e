//! Cases: an IF over the values of variables, and what each choice knows.

use crate::build::{Branches, Cases, add, alt_by, both_of, choices_in, is_at};
use occ_derive_open::{cases, prefix};
use occ_derive_unify::{Frame, Lost, Piece, Trail, alt_of, assign_of, constant, if_of, seq_of_two};
use occ_script_back::Law;
use occ_syntax::{Memory, Name, Proc, Width};
use std::alloc::Global;

/// `SEQ(IF, P)` as an IF with P behind each of its processes.
fn shared(trail: &mut Trail, choices: Cases, rest: Proc) -> Result<Cases, Lost> {
    let alloc = trail.alloc();
    let mut all = Cases::new(alloc);
    for (condition, first) in choices {
        let part = seq_of_two(alloc, first, rest.copy(alloc)?)?;
        add(&mut all, (condition, part))?;
    }
    let part = if_of(alloc, all)?;
    trail.forward(Law::SeqIf, &part)?;
    choices_in(alloc, part)
}

/// `SEQ(a, P)` made an IF over these cases of the assignment, each before P.
pub(crate) fn by_cases(trail: &mut Trail, part: Proc, table: Cases) -> Result<Cases, Lost> {
    let alloc = trail.alloc();
    let (first, rest) = both_of(alloc, part)?;
    trail.enter(0)?;
    let first = cases(trail, table.as_slice(), first)?;
    trail.leave();
    shared(trail, choices_in(alloc, first)?, rest)
}

/// For each value of a variable, in increasing order, the condition that it has it and the assignment that gives it.
pub(crate) fn by_values(alloc: Global, name: Name, width: Width) -> Result<Cases, Memory> {
    let mut table = Vec::new(alloc);
    for value in 0..=last_of(width) {
        let pair = [(name, constant(width, value))];
        let part = assign_of(alloc, &pair)?;
        table.push((is_at(alloc, name, width, value)?, part))?;
    }
    Ok(table)
}

/// The greatest value of a width.
pub(crate) fn last_of(width: Width) -> u8 {
    let mut last: u8 = 1;
    for _ in 1..width.bits() {
        last = last.saturating_mul(2).saturating_add(1);
    }
    last
}

/// An assignment brought to each configuration of a superposition.
pub(crate) fn told(trail: &mut Trail, frame: &Frame, part: Proc) -> Result<Proc, Lost> {
    let alloc = trail.alloc();
    let (first, rest) = both_of(alloc, part)?;
    match Piece::of(alloc, rest)? {
        Piece::Alt(branches) => {
            let branches = spread(trail, &first, branches)?;
            told_each(trail, frame, branches)
        }
        piece => {
            let rest = piece.into_proc(alloc)?;
            prefix(trail, frame, seq_of_two(alloc, first, rest)?)
        }
    }
}

fn spread(trail: &mut Trail, first: &Proc, branches: Branches) -> Result<Branches, Lost> {
    let alloc = trail.alloc();
    let mut all = Branches::new(alloc);
    for (guard, process) in branches {
        let part = seq_of_two(alloc, first.copy(alloc)?, process)?;
        add(&mut all, (guard, part))?;
    }
    alt_by(trail, Law::AssignAlt, all)
}

fn told_each(trail: &mut Trail, frame: &Frame, branches: Branches) -> Result<Proc, Lost> {
    let alloc = trail.alloc();
    let mut all = Branches::new(alloc);
    let mut place: u32 = 0;
    for (guard, process) in branches {
        trail.enter(place)?;
        let process = prefix(trail, frame, process)?;
        trail.leave();
        add(&mut all, (guard, process))?;
        place = place.saturating_add(1);
    }
    Ok(alt_of(alloc, all)?)
}
