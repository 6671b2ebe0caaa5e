use crate::after::after;
use crate::around::{Around, Rounds, Turn};
use crate::beside::{first_done, second_done};
use crate::build::{alone, beside_one, cut};
use crate::hidden::{declared, hidden};
use occ_derive_trail::{Law, Lost, Piece, Trail, alt_of, seq_of};
use occ_syntax::{Expr, Guard, Memory, Proc, Wait};
use std::alloc::Global;

/// Brings what a part does first to its head. The result is SKIP, STOP, a SEQ that begins with an assignment, an IF, an ALT or
/// a declaration of a variable. The names that the part declares are its own: each is declared once, but in branches of one IF
/// or ALT, and used nowhere else.
pub fn expose(trail: &mut Trail, part: Proc) -> Result<Proc, Lost> {
    let mut rounds = Rounds::new(trail.alloc());
    let mut turn = Turn::Work(part);
    for _ in 0..u64::MAX {
        turn = match turn {
            Turn::Work(part) => work(trail, &mut rounds, part)?,
            Turn::Head(head) => match rounds.leave(trail) {
                Some(next) => done(trail, &mut rounds, next, head)?,
                None => return Ok(head),
            },
        };
    }
    Err(Lost::NoStep)
}

// A part is worked from its own form.
fn work(trail: &mut Trail, rounds: &mut Rounds, part: Proc) -> Result<Turn, Lost> {
    match Piece::of(trail.alloc(), part)? {
        Piece::Assign(pairs) => assigned(trail, Piece::Assign(pairs)),
        Piece::Input(chan, var) => guarded(trail, Wait::Get { chan, var }),
        Piece::Output(chan, value) => guarded(trail, Wait::Put { chan, value }),
        Piece::Seq(parts) => in_order(trail, rounds, parts),
        Piece::Par(parts) => at_once(trail, rounds, parts),
        Piece::Chan(name, width, body) => declared(trail, rounds, name, width, body),
        other => Ok(Turn::Head(other.into_proc(trail.alloc())?)),
    }
}

// What stands round a part goes on with the part's head form.
fn done(trail: &mut Trail, rounds: &mut Rounds, next: Around, head: Proc) -> Result<Turn, Lost> {
    let head = Piece::of(trail.alloc(), head)?;
    match next {
        Around::Before(rest) => after(trail, head, rest),
        Around::Hidden(name, width) => Ok(Turn::Head(hidden(trail, name, width, head)?)),
        Around::First(other) => first_done(trail, rounds, head, other),
        Around::Second(branches) => second_done(trail, branches, head),
    }
}

// An assignment as the one part of a SEQ.
fn assigned(trail: &mut Trail, assignment: Piece) -> Result<Turn, Lost> {
    let alloc = trail.alloc();
    let whole = seq_of(alloc, alone(alloc, assignment.into_proc(alloc)?)?)?;
    trail.backward(Law::SeqOne, &whole)?;
    Ok(Turn::Head(whole))
}

// An input or an output as the one branch of an ALT.
fn guarded(trail: &mut Trail, wait: Wait) -> Result<Turn, Lost> {
    let whole = one_branch(trail.alloc(), wait)?;
    trail.forward(Law::IoAlt, &whole)?;
    Ok(Turn::Head(whole))
}

fn one_branch(alloc: Global, wait: Wait) -> Result<Proc, Memory> {
    let condition = Expr::Bool(true);
    let mut branches = Vec::new(alloc);
    branches.push((Guard { condition, wait }, Proc::Skip))?;
    alt_of(alloc, branches)
}

// A SEQ is worked at its first part, unless that is an assignment.
fn in_order(trail: &mut Trail, rounds: &mut Rounds, parts: Vec<Proc>) -> Result<Turn, Lost> {
    let alloc = trail.alloc();
    if assigns_first(parts.as_slice()) {
        return Ok(Turn::Head(seq_of(alloc, parts)?));
    }
    let Some((first, rest)) = cut(alloc, parts)? else {
        trail.forward(Law::SeqNone, &Proc::Skip)?;
        return Ok(Turn::Head(Proc::Skip));
    };
    rounds.enter(trail, 0, Around::Before(rest))?;
    Ok(Turn::Work(first))
}

// Whether the first of a row is an assignment.
fn assigns_first(parts: &[Proc]) -> bool {
    match parts {
        [first, ..] => matches!(first, Proc::Assign { .. }),
        [] => false,
    }
}

// A PAR is worked at its first part, with all others as one.
fn at_once(trail: &mut Trail, rounds: &mut Rounds, parts: Vec<Proc>) -> Result<Turn, Lost> {
    let Some((first, rest)) = cut(trail.alloc(), parts)? else {
        trail.forward(Law::ParNone, &Proc::Skip)?;
        return Ok(Turn::Head(Proc::Skip));
    };
    if rest.is_empty() {
        trail.forward(Law::ParOne, &first)?;
        return Ok(Turn::Work(first));
    }
    let (first, other) = beside_one(trail, first, rest)?;
    rounds.enter(trail, 0, Around::First(other))?;
    Ok(Turn::Work(first))
}
