ghost use Rattle.std.specs.Prelude.{◌↔◌, IsTrue};
ghost use Rattle.occ_syntax.specs.Tree.{Branches};
ghost use Rattle.occ_syntax.specs.View.{branches};
ghost use Rattle.occ_law_alt.specs.Places.{Somewhere};

use crate::fronts::after;
use occ_syntax::{Guard, Proc};

/// What a law changes at one place of a list of branches: how what stands from the place on in one list is related to
/// what stands from there on in the other.
pub(crate) trait BranchPlace {
    ghost joins: { Self → Branches → Branches → Type 0 };

    /// Whether the place is here: at the beginning of the two lists.
    fn holds(&self, alternatives: &[(Guard, Proc)], others: &[(Guard, Proc)]) -> bool
        ensures { IsTrue result ↔ joins self.now (branches alternatives.now) (branches others.now) };
}

/// Whether two lists of branches are equal up to some place, and have the change there.
pub(crate) fn somewhere<P: BranchPlace>(
    place: &P,
    alternatives: &[(Guard, Proc)],
    others: &[(Guard, Proc)],
) -> bool
    ensures { IsTrue result ↔ Somewhere (P.joins place.now) (branches alternatives.now) (branches others.now) }
{
    let mut rest = alternatives;
    let mut other_rest = others;
    while !place.holds(rest, other_rest) {
        let [branch, more @ ..] = rest else {
            return false;
        };
        let Some(found) = after(branch, other_rest) else {
            return false;
        };
        rest = more;
        other_rest = found;
    }
    true
}
