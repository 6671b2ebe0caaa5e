ghost use Rattle.occ_syntax.specs.View.{branches, tree};
ghost use Rattle.occ_law_shape.specs.occ_law.Instances.{sizes};
ghost use Rattle.occ_law_alt.specs.Parted.{AreSizes, IsAround, IsChosen, IsChosenAt, IsDivided, IsParted, IsPartedAt};

use occ_law_shape::{LawPlace as Place, branches_of};
use occ_syntax::{Guard, Proc};

/// The branches of a list in front of a place, and those from it on.
#[derive(Clone, Copy)]
pub(crate) struct Parted<'a> {
    pub(crate) front: &'a [(Guard, Proc)],
    pub(crate) rest: &'a [(Guard, Proc)],
}

/// The branches of a list in front of a place, the one that stands there, and those behind it.
#[derive(Clone, Copy)]
pub(crate) struct Chosen<'a> {
    pub(crate) front: &'a [(Guard, Proc)],
    pub(crate) branch: &'a (Guard, Proc),
    pub(crate) rest: &'a [(Guard, Proc)],
}

/// The branches of a list in front of, between and behind two of them, and these two.
#[derive(Clone, Copy)]
pub(crate) struct Around<'a> {
    pub(crate) front: &'a [(Guard, Proc)],
    pub(crate) first: &'a (Guard, Proc),
    pub(crate) middle: &'a [(Guard, Proc)],
    pub(crate) second: &'a (Guard, Proc),
    pub(crate) rest: &'a [(Guard, Proc)],
}

/// The sizes of the two lists in front of a place; None exactly where there aren't two.
fn sizes_before(place: Place) -> Option<(usize, usize)>
    ensures { AreSizes (sizes place) result }
{
    match place {
        Place::Between(front, middle) => Some((front, middle)),
        Place::Whole | Place::Behind(_) => None,
    }
}

/// A list of branches parted behind so many of them; None exactly where there are fewer.
fn parted_behind(alternatives: &[(Guard, Proc)], size: usize) -> Option<Parted<'_>>
    ensures { IsParted (branches alternatives.now) size result }
{
    if size > alternatives.len() {
        return None;
    }
    Some(Parted {
        front: &alternatives[..size],
        rest: &alternatives[size..],
    })
}

/// The branch of a list behind so many others; None exactly where there is none.
fn chosen_behind(alternatives: &[(Guard, Proc)], size: usize) -> Option<Chosen<'_>>
    ensures { IsChosen (branches alternatives.now) size result }
{
    let found = parted_behind(alternatives, size)?;
    let Some((branch, rest)) = divided(found.rest) else {
        return None;
    };
    Some(Chosen {
        front: found.front,
        branch,
        rest,
    })
}

/// The first branch of a list, and the others; None exactly where there is none.
pub(crate) fn divided(alternatives: &[(Guard, Proc)]) -> Option<(&(Guard, Proc), &[(Guard, Proc)])>
    ensures { IsDivided (branches alternatives.now) result }
{
    let [branch, rest @ ..] = alternatives else {
        return None;
    };
    Some((branch, rest))
}

/// The branches of an ALT parted at a place; None exactly where the part has no such place.
pub(crate) fn parted_at(part: &Proc, place: Place) -> Option<Parted<'_>>
    ensures { IsPartedAt (sizes place) (tree part.now) result }
{
    let size = place.size_before()?;
    let alternatives = branches_of(part)?;
    parted_behind(alternatives, size)
}

/// The branch of an ALT at a place; None exactly where none stands there.
pub(crate) fn chosen_at(part: &Proc, place: Place) -> Option<Chosen<'_>>
    ensures { IsChosenAt (sizes place) (tree part.now) result }
{
    let size = place.size_before()?;
    let alternatives = branches_of(part)?;
    chosen_behind(alternatives, size)
}

/// The two branches of an ALT at a place; None exactly where there aren't two.
pub(crate) fn around_at(part: &Proc, place: Place) -> Option<Around<'_>>
    ensures { IsAround (sizes place) (tree part.now) result }
{
    let (before, between) = sizes_before(place)?;
    let alternatives = branches_of(part)?;
    let first = chosen_behind(alternatives, before)?;
    let Some(second) = chosen_behind(first.rest, between) else {
        return None;
    };
    Some(Around {
        front: first.front,
        first: first.branch,
        middle: second.front,
        second: second.branch,
        rest: second.rest,
    })
}
