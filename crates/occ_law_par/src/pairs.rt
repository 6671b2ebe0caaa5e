ghost use Rattle.std.specs.Prelude.{◌≡◌, ◌↔◌, IsTrue};
ghost use Rattle.occ_syntax.specs.Tree.{par, seq};
ghost use Rattle.occ_syntax.specs.View.{tree};
ghost use Rattle.occ_law_shape.specs.occ_meaning.Parallel.{two};
ghost use Rattle.occ_law_par.specs.Pairs.{IsTwoIn};

use occ_law_shape::{Form, opened, pair};
use occ_syntax::{Proc, same_proc};

/// The two parts of a PAR of two; None exactly where the process isn't one.
pub(crate) fn two_in_par(whole: &Proc) -> Option<(&Proc, &Proc)>
    ensures { IsTwoIn par (tree whole.now) result }
{
    match opened(whole) {
        Form::Par(parts) => pair(parts),
        _ => None,
    }
}

/// The two parts of a SEQ of two; None exactly where the process isn't one.
pub(crate) fn two_in_seq(whole: &Proc) -> Option<(&Proc, &Proc)>
    ensures { IsTwoIn seq (tree whole.now) result }
{
    match opened(whole) {
        Form::Seq(parts) => pair(parts),
        _ => None,
    }
}

/// Whether a process is the PAR of two.
pub(crate) fn is_par_of(whole: &Proc, first: &Proc, second: &Proc) -> bool
    ensures { IsTrue result ↔ (tree whole.now ≡ par (two (tree first.now) (tree second.now))) }
{
    match two_in_par(whole) {
        Some((left, right)) => same_proc(left, first) && same_proc(right, second),
        None => false,
    }
}
