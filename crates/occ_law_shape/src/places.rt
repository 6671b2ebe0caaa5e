ghost use Rattle.std.specs.Prelude.{◌↔◌, IsTrue};
ghost use Rattle.occ_syntax.specs.Tree.{Trees, and_tree, no_tree};
ghost use Rattle.occ_syntax.specs.View.{tree, trees};
ghost use Rattle.occ_law_shape.specs.Places.{Somewhere};

use occ_syntax::{Proc, same_proc};

/// What a law changes at one place of a list of processes: how what stands from the place on in one list is related to
/// what stands from there on in the other. Where nothing is left of the first list there is no such place.
pub trait Place {
    ghost joins: { Self → Trees → Trees → Type 0 };

    /// Whether the place is here: at the beginning of a list, given as its first part and the rest, and of the other list.
    fn holds(&self, first: &Proc, rest: &[Proc], others: &[Proc]) -> bool
        ensures { IsTrue result ↔ joins self.now (and_tree (tree first.now) (trees rest.now)) (trees others.now) };

    ghost starts: { (place : Self) (us : Trees) → joins place no_tree us → ⊥ };
}

/// Whether two lists of processes are equal up to some place, and have the change there. It takes no memory.
pub fn somewhere<P: Place>(place: &P, parts: &[Proc], others: &[Proc]) -> bool
    ensures { IsTrue result ↔ Somewhere (P.joins place.now) (trees parts.now) (trees others.now) }
{
    let mut rest = parts;
    let mut other_rest = others;
    while let [first, behind @ ..] = rest {
        if place.holds(first, behind, other_rest) {
            return true;
        }
        let [other, other_behind @ ..] = other_rest else {
            return false;
        };
        if !same_proc(first, other) {
            return false;
        }
        rest = behind;
        other_rest = other_behind;
    }
    false
}
