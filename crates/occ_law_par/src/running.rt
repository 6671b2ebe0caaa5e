ghost use Rattle.std.specs.Prelude.{◌≡◌, ◌↔◌, IsTrue};
ghost use Rattle.occ_syntax.specs.View.{tree};
ghost use Rattle.occ_law_par.specs.Expand.{run_beside};

use crate::pairs::is_par_of;
use occ_law_shape::ChoicePiece;
use occ_syntax::{Expr, Memory, Proc, same_expr};
use std::alloc::Global;

/// What runs beside a process in a PAR.
#[derive(Clone, Copy)]
pub(crate) enum Beside<'a> {
    /// The second part of the PAR.
    Behind(&'a Proc),
    /// The first part of the PAR.
    Before(&'a Proc),
}

impl ChoicePiece for Beside<'_> {
    ghost is_ready = { λ _. Unit {0} };

    ghost condition = { λ _ b. b };

    ghost process = { λ beside p. run_beside beside p };

    fn fits(
        &self,
        _alloc: Global,
        choice: &(Expr, Proc),
        other: &(Expr, Proc),
    ) -> Result<bool, Memory> {
        if !same_expr(&other.0, &choice.0) {
            return Ok(false);
        }
        Ok(runs_beside(*self, &choice.1, &other.1))
    }
}

/// Whether a process is the PAR of a part and what runs beside it.
pub(crate) fn runs_beside(beside: Beside<'_>, part: &Proc, whole: &Proc) -> bool
    ensures { IsTrue result ↔ (tree whole.now ≡ run_beside beside.entry (tree part.now)) }
{
    match beside {
        Beside::Behind(second) => is_par_of(whole, part, second),
        Beside::Before(first) => is_par_of(whole, first, part),
    }
}
