ghost use Rattle.std.specs.Prelude.{◌≡◌, ◌↔◌, IsTrue, List, ℕ};
ghost use Rattle.occ_syntax.specs.Tree.{Exp, Trees, and_tree, assign, par, seq};
ghost use Rattle.occ_syntax.specs.View.{tree, trees};
ghost use Rattle.occ_law_shape.specs.occ_meaning.Parallel.{two};
ghost use Rattle.occ_law_shape.specs.occ_law.Parallel.{ParAssign};
ghost use Rattle.occ_law_shape.specs.Answer.{IsAnswer};

use crate::pairs::{two_in_par, two_in_seq};
use occ_law_shape::{Form, behind, opened};
use occ_syntax::{Proc, same_proc, same_procs};
use std::slice;

/// PAR(SEQ(xs := es, Ps), Q) = SEQ(xs := es, PAR(SEQ(Ps), Q))
pub(crate) fn par_assign(left: &Proc, right: &Proc) -> bool
    ensures { IsAnswer ParAssign (tree left.now) (tree right.now) result }
{
    let Some((first, second)) = two_in_par(left) else {
        return false;
    };
    let Some((assignment, beside)) = two_in_seq(right) else {
        return false;
    };
    let Some((rest, other)) = two_in_par(beside) else {
        return false;
    };
    if !is_assignment(assignment) {
        return false;
    }
    begins_with(first, assignment, rest) && same_proc(second, other)
}

/// Whether a process is an assignment.
fn is_assignment(part: &Proc) -> bool
    ensures { IsTrue result ↔ ((xs : List ℕ) × (es : List Exp) × (tree part.now ≡ assign xs es)) }
{
    match opened(part) {
        Form::Assign(_, _) => true,
        _ => false,
    }
}

/// Whether a process is the SEQ of a part and then the parts of the SEQ that is the rest.
fn begins_with(whole: &Proc, part: &Proc, rest: &Proc) -> bool
    ensures { IsTrue result ↔ ((ps : Trees) × (tree whole.now ≡ seq (and_tree (tree part.now) ps)) × (tree rest.now ≡ seq ps)) }
{
    match opened(whole) {
        Form::Seq(parts) => match opened(rest) {
            Form::Seq(others) => is_row(parts, part, others),
            _ => false,
        },
        _ => false,
    }
}

/// Whether a list is a part and others behind it.
fn is_row(parts: &[Proc], part: &Proc, others: &[Proc]) -> bool
    ensures { IsTrue result ↔ (trees parts.now ≡ and_tree (tree part.now) (trees others.now)) }
{
    match behind(slice::from_ref(part), parts) {
        Some(rest) => same_procs(rest, others),
        None => false,
    }
}
