ghost use Rattle.std.specs.Prelude.{◌≡◌, ◌↔◌, IfOk, IsTrue};
ghost use Rattle.occ_syntax.specs.Tree.{Cases, no_case};
ghost use Rattle.occ_syntax.specs.View.{cases, exp, tree};
ghost use Rattle.occ_law_shape.specs.occ_law.Lists.{all_cases};
ghost use Rattle.occ_law_if.specs.Places.{Somewhere};

use occ_law_shape::Store;
use occ_syntax::{Expr, Memory, Proc, same_expr, same_proc};
use std::alloc::Global;

/// A place of two lists of choices: what stands before it in both, and from it on in each.
#[derive(Clone, Copy)]
pub(crate) struct Here<'a> {
    pub(crate) before: &'a [(Expr, Proc)],
    pub(crate) rest: &'a [(Expr, Proc)],
    pub(crate) others: &'a [(Expr, Proc)],
}

/// What a law changes at one place of a list of choices: how what stands from the place on in one list is related to what
/// stands from there on in the other, in view of what stands before. Where nothing is left of the first list there is no
/// such place.
pub(crate) trait ChoicePlace {
    ghost is_ready: { Self → Cases → Cases → Type 0 };

    ghost joins: { Self → Cases → Cases → Cases → Type 0 };

    /// Whether the law's change is here.
    fn holds(&self, alloc: Global, store: &mut Store, here: &Here<'_>) -> Result<bool, Memory>
        requires { is_ready self.now (all_cases (cases here.now.before.now) (cases here.now.rest.now))
            (all_cases (cases here.now.before.now) (cases here.now.others.now)) }
        ensures { IfOk result (λ answer. IsTrue answer
            ↔ joins self.now (cases here.now.before.now) (cases here.now.rest.now) (cases here.now.others.now)) };

    ghost starts: { (place : Self) (front us : Cases) → joins place front no_case us → ⊥ };
}

/// Whether two lists of choices are equal up to some place, and have the change there. Each place up to the first difference
/// is tried once.
pub(crate) fn somewhere<P: ChoicePlace>(
    alloc: Global,
    store: &mut Store,
    place: &P,
    choices: &[(Expr, Proc)],
    others: &[(Expr, Proc)],
) -> Result<bool, Memory>
    requires { P.is_ready place.now (cases choices.now) (cases others.now) }
    ensures { IfOk result (λ answer. IsTrue answer ↔ Somewhere (P.joins place.now) no_case (cases choices.now) (cases others.now)) }
{
    for k in 0..choices.len() {
        let here = Here {
            before: &choices[..k],
            rest: &choices[k..],
            others: &others[k..],
        };
        let is_here = place.holds(alloc, store, &here)?;
        if is_here {
            return Ok(true);
        }
        if k == others.len() {
            return Ok(false);
        }
        if !same_choice(&choices[k], &others[k]) {
            return Ok(false);
        }
    }
    Ok(false)
}

/// Whether two choices have one condition and one process.
fn same_choice(choice: &(Expr, Proc), other: &(Expr, Proc)) -> bool
    ensures { IsTrue result ↔ ((exp choice.now.0 ≡ exp other.now.0) × (tree choice.now.1 ≡ tree other.now.1)) }
{
    same_expr(&choice.0, &other.0) && same_proc(&choice.1, &other.1)
}
