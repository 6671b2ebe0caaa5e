ghost use Rattle.occ_syntax.specs.View.{tree};
ghost use Rattle.occ_law_shape.specs.occ_law.Instances.{sizes};
ghost use Rattle.occ_law_if.specs.Chosen.{IsChosen, IsParted};

use crate::choices::{Front, divided};
use occ_law_shape::{LawPlace as Place, choices_of};
use occ_syntax::{Expr, Proc};

/// The choices of an IF in front of a place, and those from it on.
#[derive(Clone, Copy)]
pub(crate) struct Halves<'a> {
    pub(crate) before: &'a [(Expr, Proc)],
    pub(crate) rest: &'a [(Expr, Proc)],
}

/// The choices of an IF in front of a place, and those from it on, of which there is a first one.
#[derive(Clone, Copy)]
pub(crate) struct Here<'a> {
    pub(crate) before: &'a [(Expr, Proc)],
    pub(crate) first: Front<'a>,
}

/// The choices of a part in front of a place, and those from it on; None exactly where the part has no such place.
pub(crate) fn parted(part: &Proc, place: Place) -> Option<Halves<'_>>
    ensures { IsParted (sizes place) (tree part.now) result }
{
    let size = place.size_before()?;
    let choices = choices_of(part)?;
    if size > choices.len() {
        return None;
    }
    Some(Halves {
        before: &choices[..size],
        rest: &choices[size..],
    })
}

/// The choices of a part in front of a place, the one that stands there, and those behind it; None exactly where none stands
/// there.
pub(crate) fn chosen(part: &Proc, place: Place) -> Option<Here<'_>>
    ensures { IsChosen (sizes place) (tree part.now) result }
{
    let Some(halves) = parted(part, place) else {
        return None;
    };
    let Some(first) = divided(halves.rest) else {
        return None;
    };
    Some(Here {
        before: halves.before,
        first,
    })
}
