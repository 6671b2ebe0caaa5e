ghost use Rattle.std.specs.Prelude.{◌↔◌, IsTrue};
ghost use Rattle.occ_syntax.specs.View.{exp, waiting, tree, branches};
ghost use Rattle.occ_law_alt.specs.Lacking.{IsLacking, Lacks};

use crate::fronts::after;
use occ_syntax::{Guard, Proc, same_branches, same_guard, same_proc};

/// The branch that one list lacks of another, where it is that list without one branch; None exactly where it isn't. The
/// branch is at the first place where the lists differ, since of a row of equal branches any one may be the one that is lacked.
pub(crate) fn lacking<'a>(
    all: &'a [(Guard, Proc)],
    others: &[(Guard, Proc)],
) -> Option<&'a (Guard, Proc)>
    ensures { IsLacking (branches all.now) (branches others.now) result }
{
    let mut rest = all;
    let mut other_rest = others;
    while let [branch, more @ ..] = rest {
        match after(branch, other_rest) {
            Some(found) => {
                rest = more;
                other_rest = found;
            }
            None if same_branches(more, other_rest) => return Some(branch),
            None => return None,
        }
    }
    None
}

/// Whether one list is another one without one branch of that guard and process.
pub(crate) fn lacks(
    guard: &Guard,
    process: &Proc,
    all: &[(Guard, Proc)],
    others: &[(Guard, Proc)],
) -> bool
    ensures { IsTrue result
        ↔ Lacks (exp guard.now.condition) (waiting guard.now.wait) (tree process.now) (branches all.now) (branches others.now) }
{
    match lacking(all, others) {
        Some(found) => same_guard(&found.0, guard) && same_proc(&found.1, process),
        None => false,
    }
}
