ghost use Rattle.occ_syntax.specs.View.{tree};
ghost use Rattle.occ_law_seq.specs.occ_law.Instances.{sizes};
ghost use Rattle.occ_law_right.specs.Chosen.{IsChosen};

use occ_law_seq::{LawShapeHere as Here, Place, part_at, parts_in_seq};
use occ_syntax::Proc;

/// The parts of a SEQ in front of a place, the one that stands there, and those behind it; None exactly where none stands there.
pub(crate) fn chosen(part: &Proc, place: Place) -> Option<Here<'_>>
    ensures { IsChosen (sizes place) (tree part.now) result }
{
    let size = place.size_before()?;
    let parts = parts_in_seq(part)?;
    let Some(found) = part_at(parts, size) else {
        return None;
    };
    Some(found)
}
