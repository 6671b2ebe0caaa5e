ghost use Rattle.std.specs.Prelude.{◌≡◌, ◌↔◌, IsTrue, List, ℕ};
ghost use Rattle.occ_syntax.specs.Tree.{Exp, assign};
ghost use Rattle.occ_syntax.specs.View.{tree};
ghost use Rattle.occ_law_shape.specs.occ_law.Instances.{sizes};
ghost use Rattle.occ_law_par.specs.Parts.{AreParts, AreTwo, IsBegun, IsChosen};

use occ_law_shape::{
    Form, Here, LawPlace as Place, opened, pair, part_at, parts_in_par, parts_in_seq,
};
use occ_syntax::Proc;

/// An assignment, and the parts behind it in a SEQ.
#[derive(Clone, Copy)]
pub(crate) struct Start<'a> {
    pub(crate) assignment: &'a Proc,
    pub(crate) rest: &'a [Proc],
}

/// The parts of a PAR that changes as a whole; None exactly where the process isn't one, or the place isn't the whole part.
pub(crate) fn parts_of(part: &Proc, place: Place) -> Option<&[Proc]>
    ensures { AreParts (sizes place) (tree part.now) result }
{
    if !place.is_whole() {
        return None;
    }
    let Some(parts) = parts_in_par(part) else {
        return None;
    };
    Some(parts)
}

/// The two parts of a PAR of two that changes as a whole; None exactly where the process isn't one, or the place isn't the
/// whole part.
pub(crate) fn two_of(part: &Proc, place: Place) -> Option<(&Proc, &Proc)>
    ensures { AreTwo (sizes place) (tree part.now) result }
{
    let Some(parts) = parts_of(part, place) else {
        return None;
    };
    let Some(both) = pair(parts) else {
        return None;
    };
    Some(both)
}

/// The part of a PAR at a place, and those before it and behind it; None exactly where the process has no part there.
pub(crate) fn chosen(part: &Proc, place: Place) -> Option<Here<'_>>
    ensures { IsChosen (sizes place) (tree part.now) result }
{
    let Some(size) = place.size_before() else {
        return None;
    };
    let Some(parts) = parts_in_par(part) else {
        return None;
    };
    let Some(found) = part_at(parts, size) else {
        return None;
    };
    Some(found)
}

/// The assignment with which a SEQ begins, and the parts behind it; None exactly where the process isn't such a SEQ.
pub(crate) fn begun(part: &Proc) -> Option<Start<'_>>
    ensures { IsBegun (tree part.now) result }
{
    let Some(parts) = parts_in_seq(part) else {
        return None;
    };
    let [first, rest @ ..] = parts else {
        return None;
    };
    if !is_assignment(first) {
        return None;
    }
    Some(Start {
        assignment: first,
        rest,
    })
}

/// Whether a process is an assignment.
fn is_assignment(part: &Proc) -> bool
    ensures { IsTrue result ↔ ((xs : List ℕ) × (es : List Exp) × (tree part.now ≡ assign xs es)) }
{
    match opened(part) {
        Form::Assign(_, _) => true,
        _ => false,
    }
}
