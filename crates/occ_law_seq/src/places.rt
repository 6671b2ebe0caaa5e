ghost use Rattle.std.specs.Prelude.{◌≡◌, ◌↔◌, IsTrue, true};
ghost use Rattle.occ_syntax.specs.View.{trees};
ghost use Rattle.occ_law_seq.specs.Places.{FlatHere, SkipHere, StopHere, begins_with_skip as begins_so, no_flat_at_end, no_skip_at_end, no_stop_at_end};

use occ_law_shape::{Form, Place, behind, is_skip, is_stop, only, opened};
use occ_syntax::{Proc, same_procs};

/// A SEQ in a SEQ, whose parts take its place.
#[derive(Clone, Copy)]
pub(crate) struct Flat;

impl Place for Flat {
    ghost joins = { λ _. FlatHere };

    fn holds(&self, first: &Proc, rest: &[Proc], others: &[Proc]) -> bool {
        match opened(first) {
            Form::Seq(inner) => match behind(inner, others) {
                Some(other_rest) => same_procs(rest, other_rest),
                None => false,
            },
            _ => false,
        }
    }

    ghost starts = { λ _ us j. no_flat_at_end us j };
}

/// A SKIP, which leaves: the last of a row of SKIPs.
#[derive(Clone, Copy)]
pub(crate) struct LastSkip;

impl Place for LastSkip {
    ghost joins = { λ _. SkipHere };

    fn holds(&self, first: &Proc, rest: &[Proc], others: &[Proc]) -> bool {
        if begins_with_skip(others) {
            return false;
        }
        match opened(first) {
            Form::Skip => same_procs(rest, others),
            _ => false,
        }
    }

    ghost starts = { λ _ us j. no_skip_at_end us j };
}

/// A STOP, behind which nothing is left.
#[derive(Clone, Copy)]
pub(crate) struct LastStop;

impl Place for LastStop {
    ghost joins = { λ _. StopHere };

    fn holds(&self, first: &Proc, _rest: &[Proc], others: &[Proc]) -> bool {
        match opened(first) {
            Form::Stop => match only(others) {
                Some(other) => is_stop(other),
                None => false,
            },
            _ => false,
        }
    }

    ghost starts = { λ _ us j. no_stop_at_end us j };
}

fn begins_with_skip(parts: &[Proc]) -> bool
    ensures { IsTrue result ↔ (begins_so (trees parts.now) ≡ true) }
{
    let [first, ..] = parts else {
        return false;
    };
    is_skip(first)
}
