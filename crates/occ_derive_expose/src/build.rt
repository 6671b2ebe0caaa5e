use occ_derive_trail::{Law, Lost, Piece, Trail, par_of, seq_of, seq_of_two};
use occ_syntax::{Memory, Proc};
use std::alloc::Global;

/// PAR of two parts.
pub(crate) fn par_of_two(alloc: Global, first: Proc, second: Proc) -> Result<Proc, Memory> {
    let mut parts = Vec::new(alloc);
    parts.push(first)?;
    parts.push(second)?;
    par_of(alloc, parts)
}

/// The PAR or the SEQ of one part.
pub(crate) fn alone(alloc: Global, part: Proc) -> Result<Vec<Proc>, Memory> {
    let mut parts = Vec::new(alloc);
    parts.push(part)?;
    Ok(parts)
}

/// The first of a row and those behind it; None of an empty row.
pub(crate) fn cut(alloc: Global, parts: Vec<Proc>) -> Result<Option<(Proc, Vec<Proc>)>, Memory> {
    let mut first = None;
    let mut rest = Vec::new(alloc);
    for part in parts {
        if first.is_some() {
            rest.push(part)?;
        } else {
            first = Some(part);
        }
    }
    match first {
        Some(first) => Ok(Some((first, rest))),
        None => Ok(None),
    }
}

/// A process and behind it copies of others, one after another.
pub(crate) fn followed(alloc: Global, first: Proc, rest: &[Proc]) -> Result<Proc, Memory> {
    let mut parts = alone(alloc, first)?;
    for part in rest {
        parts.push(part.copy(alloc)?)?;
    }
    seq_of(alloc, parts)
}

/// The two parts of a SEQ or a PAR of two.
pub(crate) fn parted(alloc: Global, whole: Proc) -> Result<(Proc, Proc), Lost> {
    let mut parts = match Piece::of(alloc, whole)? {
        Piece::Seq(parts) | Piece::Par(parts) => parts,
        _ => return Err(Lost::NoStep),
    };
    let (second, first) = (parts.pop(), parts.pop());
    match (first, second) {
        (Some(first), Some(second)) => Ok((first, second)),
        _ => Err(Lost::NoStep),
    }
}

/// A SEQ of a process and of others behind it as one of two: the others are one SEQ now, where they weren't one process.
pub(crate) fn in_two(
    trail: &mut Trail,
    first: Proc,
    rest: Vec<Proc>,
) -> Result<(Proc, Proc), Lost> {
    let alloc = trail.alloc();
    let mut rest = rest;
    if rest.len() == 1 {
        if let Some(second) = rest.pop() {
            return Ok((first, second));
        }
    }
    let whole = seq_of_two(alloc, first, seq_of(alloc, rest)?)?;
    trail.backward(Law::SeqFlat, &whole)?;
    parted(alloc, whole)
}

/// A PAR of a process and of others as one of two: the others are one PAR now, where they weren't one process.
pub(crate) fn beside_one(
    trail: &mut Trail,
    first: Proc,
    rest: Vec<Proc>,
) -> Result<(Proc, Proc), Lost> {
    let alloc = trail.alloc();
    let mut rest = rest;
    if rest.len() == 1 {
        if let Some(second) = rest.pop() {
            return Ok((first, second));
        }
    }
    let whole = par_of_two(alloc, first, par_of(alloc, rest)?)?;
    trail.backward(Law::ParFlat, &whole)?;
    parted(alloc, whole)
}
