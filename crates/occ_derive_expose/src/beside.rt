//! The two parts of a PAR, one after the other in its head form.

use crate::around::{Around, Rounds, Turn};
use crate::leave::{first_leaves, second_leaves};
use crate::meet::meet;
use occ_derive_trail::{Lost, Piece, Trail, alt_of};
use occ_syntax::{Guard, Proc};

/// The first part has its head form: an ALT waits for the second part, and all else leaves the PAR.
pub(crate) fn first_done(
    trail: &mut Trail,
    rounds: &mut Rounds,
    head: Piece,
    other: Proc,
) -> Result<Turn, Lost> {
    match head {
        Piece::Alt(branches) => {
            rounds.enter(trail, 1, Around::Second(branches))?;
            Ok(Turn::Work(other))
        }
        head => first_leaves(trail, head, other),
    }
}

/// The second part has its head form too, beside an ALT.
pub(crate) fn second_done(
    trail: &mut Trail,
    branches: Vec<(Guard, Proc)>,
    head: Piece,
) -> Result<Turn, Lost> {
    match head {
        Piece::Alt(others) => {
            let left = alt_of(trail.alloc(), branches)?;
            let right = alt_of(trail.alloc(), others)?;
            Ok(Turn::Head(meet(trail, left, right)?))
        }
        head => {
            let other = alt_of(trail.alloc(), branches)?;
            second_leaves(trail, other, head)
        }
    }
}
