ghost use Rattle.occ_syntax.specs.View.{tree};
ghost use Rattle.occ_law_par.specs.Places.{GoesHere, IsReplaced, nothing_goes_at_end};

use occ_law_shape::{Form, Place, behind, opened};
use occ_syntax::{Proc, same_procs};

/// A part of a list that goes, and what takes its place.
#[derive(Clone, Copy)]
pub(crate) enum Leaving {
    /// A PAR, whose parts take its place.
    Par,
    /// A SKIP, whose place nothing takes.
    Skip,
}

impl Place for Leaving {
    ghost joins = { λ leaving. GoesHere leaving };

    fn holds(&self, first: &Proc, rest: &[Proc], others: &[Proc]) -> bool {
        let Some(inner) = replaced(*self, first) else {
            return false;
        };
        match behind(inner, others) {
            Some(other_rest) => same_procs(rest, other_rest),
            None => false,
        }
    }

    ghost starts = { λ leaving us j. nothing_goes_at_end leaving us j };
}

/// The parts that take a part's place; None exactly where it doesn't go.
fn replaced(leaving: Leaving, part: &Proc) -> Option<&[Proc]>
    ensures { IsReplaced leaving (tree part.now) result }
{
    match leaving {
        Leaving::Par => match opened(part) {
            Form::Par(inner) => Some(inner),
            _ => None,
        },
        Leaving::Skip => match opened(part) {
            Form::Skip => Some(&[]),
            _ => None,
        },
    }
}
