ghost use Rattle.std.specs.Prelude.{◌≡◌, ◌↔◌, IsTrue, true};
ghost use Rattle.occ_syntax.specs.View.{exp, waiting, branches};
ghost use Rattle.occ_syntax.specs.Tree.{ready, truth};
ghost use Rattle.occ_law_shape.specs.occ_law.Choice.{are_events as all_wait, are_plain_events as all_wait_plainly, has_skip as some_skips, is_event as waits};

use occ_law_shape::is_truth;
use occ_syntax::{Guard, Proc, Wait};

/// Whether a guard waits for an input or an output.
pub fn is_event(wait: &Wait) -> bool
    ensures { result ≡ waits (waiting wait.now) }
{
    match wait {
        Wait::Skip => false,
        _ => true,
    }
}

/// Whether a guard is TRUE & SKIP.
pub(crate) fn is_skip(guard: &Guard) -> bool
    ensures { IsTrue result ↔ ((exp guard.now.condition ≡ truth true) × (waiting guard.now.wait ≡ ready)) }
{
    is_truth(&guard.condition) && !is_event(&guard.wait)
}

/// Whether some branch has the guard TRUE & SKIP.
pub fn has_skip(alternatives: &[(Guard, Proc)]) -> bool
    ensures { IsTrue result ↔ (some_skips (branches alternatives.now) ≡ true) }
{
    let mut rest = alternatives;
    while let [branch, more @ ..] = rest {
        if is_skip(&branch.0) {
            return true;
        }
        rest = more;
    }
    false
}

/// Whether every branch waits for an input or an output.
pub fn are_events(alternatives: &[(Guard, Proc)]) -> bool
    ensures { IsTrue result ↔ (all_wait (branches alternatives.now) ≡ true) }
{
    let mut rest = alternatives;
    while let [branch, more @ ..] = rest {
        if !is_event(&branch.0.wait) {
            return false;
        }
        rest = more;
    }
    true
}

/// Whether every branch waits for an input or an output, with the condition TRUE.
pub fn are_plain_events(alternatives: &[(Guard, Proc)]) -> bool
    ensures { IsTrue result ↔ (all_wait_plainly (branches alternatives.now) ≡ true) }
{
    let mut rest = alternatives;
    while let [branch, more @ ..] = rest {
        if !is_truth(&branch.0.condition) {
            return false;
        }
        if !is_event(&branch.0.wait) {
            return false;
        }
        rest = more;
    }
    true
}
