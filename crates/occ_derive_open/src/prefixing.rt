use crate::joining::join_pairs;
use crate::layers::{Layer, Layers};
use crate::row::{first_of, flatten, into_scope, two_of_seq};
use crate::spine::Spine;
use occ_derive_expose::{Frame, Lost, Piece, Trail, assign_of};
use occ_syntax::{Expr, Name, Proc, Width};

/// A SEQ of an assignment and a configuration becomes the configuration with the assignment brought in to its known values.
pub fn prefix(trail: &mut Trail, frame: &Frame, part: Proc) -> Result<Proc, Lost> {
    let alloc = trail.alloc();
    let (first, inner) = two_of_seq(alloc, part)?;
    let Piece::Assign(first) = Piece::of(alloc, first)? else {
        return Err(Lost::NoStep);
    };
    let Spine { known, layers } = brought(trail, first.as_slice(), inner)?;
    let joined = join_pairs(trail, frame, first, known)?;
    layers.close(trail, assign_of(alloc, joined.as_slice())?)
}

/// The assignment in front of a configuration goes in to it, to stand in front of its own. The configuration is taken apart; the trail
/// goes to the SEQ of the two assignments.
fn brought(trail: &mut Trail, first: &[(Name, Expr)], part: Proc) -> Result<Spine, Lost> {
    let alloc = trail.alloc();
    let mut layers = Layers::new(alloc);
    let mut rest = part;
    // Each turn takes a layer off.
    for _ in 0..u64::MAX {
        match Piece::of(alloc, rest)? {
            Piece::Assign(known) => return Ok(Spine { known, layers }),
            Piece::Seq(parts) => rest = pass_seq(trail, &mut layers, first, parts)?,
            Piece::Var(name, width, body) => {
                rest = pass_var(trail, &mut layers, first, (name, width), body)?;
            }
            _ => return Err(Lost::NoStep),
        }
    }
    Err(Lost::NoStep)
}

/// The assignment goes to the first part of a SEQ; this part is given.
fn pass_seq(
    trail: &mut Trail,
    layers: &mut Layers,
    first: &[(Name, Expr)],
    parts: Vec<Proc>,
) -> Result<Proc, Lost> {
    let assignment = assign_of(trail.alloc(), first)?;
    let (assignment, parts) = flatten(trail, assignment, parts)?;
    let (inner, rest) = first_of(parts)?;
    let (_, inner) = layers.focus(trail, assignment, inner, rest)?;
    Ok(inner)
}

/// The assignment goes into a declaration; what this governs is given.
fn pass_var(
    trail: &mut Trail,
    layers: &mut Layers,
    first: &[(Name, Expr)],
    variable: (Name, Width),
    body: Proc,
) -> Result<Proc, Lost> {
    let assignment = assign_of(trail.alloc(), first)?;
    let inner = into_scope(trail, assignment, variable, body)?;
    layers.push(trail, Layer::Var(variable.0, variable.1))?;
    Ok(inner)
}
