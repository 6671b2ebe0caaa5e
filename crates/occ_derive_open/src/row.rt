use occ_derive_expose::{Law, Lost, Piece, Trail, seq_of, seq_of_two, var_of};
use occ_syntax::{Expr, Name, Proc, Width};
use std::alloc::Global;

/// The most steps that any one loop of the strategy takes.
pub(crate) const MOST: u32 = 1_000_000;

/// The parts of a SEQ.
pub(crate) fn parts_of_seq(alloc: Global, part: Proc) -> Result<Vec<Proc>, Lost> {
    match Piece::of(alloc, part)? {
        Piece::Seq(parts) => Ok(parts),
        _ => Err(Lost::NoStep),
    }
}

/// The first part of a list, and the others.
pub(crate) fn first_of(parts: Vec<Proc>) -> Result<(Proc, Vec<Proc>), Lost> {
    let mut rest = parts;
    if rest.is_empty() {
        return Err(Lost::NoStep);
    }
    let first = rest.remove(0);
    Ok((first, rest))
}

/// The first two parts of a SEQ: of two, both.
pub(crate) fn two_of_seq(alloc: Global, part: Proc) -> Result<(Proc, Proc), Lost> {
    let (first, rest) = first_of(parts_of_seq(alloc, part)?)?;
    let (second, _) = first_of(rest)?;
    Ok((first, second))
}

/// SEQ of a part and those that follow it.
pub(crate) fn seq_with(alloc: Global, first: Proc, rest: Vec<Proc>) -> Result<Proc, Lost> {
    let mut parts = rest;
    parts.insert(0, first)?;
    Ok(seq_of(alloc, parts)?)
}

/// The first two parts of a SEQ become a SEQ of their own, at the first place of the SEQ; nothing where no others follow them.
/// All are given back.
pub(crate) fn group(
    trail: &mut Trail,
    first: Proc,
    second: Proc,
    rest: Vec<Proc>,
) -> Result<(Proc, Proc, Vec<Proc>), Lost> {
    if rest.is_empty() {
        return Ok((first, second, rest));
    }
    let alloc = trail.alloc();
    let both = seq_of_two(alloc, first, second)?;
    let whole = seq_with(alloc, both, rest)?;
    trail.backward(Law::SeqFlat, &whole)?;
    let parts = parts_of_seq(alloc, whole)?;
    let (both, rest) = first_of(parts)?;
    let (first, second) = two_of_seq(alloc, both)?;
    Ok((first, second, rest))
}

/// A SEQ in a SEQ gives its parts to the outer one: what stands in front of it, its own parts. All are given back.
pub(crate) fn flatten(
    trail: &mut Trail,
    first: Proc,
    rest: Vec<Proc>,
) -> Result<(Proc, Vec<Proc>), Lost> {
    let alloc = trail.alloc();
    let whole = seq_with(alloc, first, rest)?;
    trail.forward(Law::SeqFlat, &whole)?;
    let parts = parts_of_seq(alloc, whole)?;
    let (first, rest) = first_of(parts)?;
    Ok((first, rest))
}

/// A SEQ of an assignment and a declaration becomes the declaration for a SEQ of both. What was declared is given; the trail stays at
/// the whole.
pub(crate) fn into_scope(
    trail: &mut Trail,
    assignment: Proc,
    variable: (Name, Width),
    body: Proc,
) -> Result<Proc, Lost> {
    let alloc = trail.alloc();
    let (name, width) = variable;
    let inner = seq_of_two(alloc, assignment, body)?;
    let whole = var_of(alloc, name, width, inner)?;
    trail.backward(Law::VarFirst, &whole)?;
    let (_, _, inner) = declared(alloc, whole)?;
    let (_, body) = two_of_seq(alloc, inner)?;
    Ok(body)
}

/// A declared variable, its width and what it is declared for.
pub(crate) fn declared(alloc: Global, part: Proc) -> Result<(Name, Width, Proc), Lost> {
    match Piece::of(alloc, part)? {
        Piece::Var(name, width, body) => Ok((name, width, body)),
        _ => Err(Lost::NoStep),
    }
}

/// The choices of an IF.
pub(crate) fn choices_of_if(trail: &Trail, part: Proc) -> Result<Vec<(Expr, Proc)>, Lost> {
    match Piece::of(trail.alloc(), part)? {
        Piece::If(choices) => Ok(choices),
        _ => Err(Lost::NoStep),
    }
}
