ghost use Rattle.std.specs.Prelude.{◌≡◌, ◌↔◌, IsTrue};
ghost use Rattle.occ_syntax.specs.View.{tree};
ghost use Rattle.occ_law_seq.specs.Assignment.{IsAssignedFirst, IsInTurn};

use crate::pairs::Pairs;
use occ_law_shape::{Form, opened, pair};
use occ_syntax::Proc;

/// The two parts of a SEQ that has two; None exactly where it is no such SEQ.
pub(crate) fn in_turn(part: &Proc) -> Option<(&Proc, &Proc)>
    ensures { IsInTurn (tree part.now) result }
{
    match opened(part) {
        Form::Seq(parts) => pair(parts),
        _ => None,
    }
}

/// The pairs of an assignment and the process behind it, of a SEQ of these two; None exactly where the part is no such SEQ.
pub fn assigned_first(part: &Proc) -> Option<(Pairs<'_>, &Proc)>
    ensures { IsAssignedFirst (tree part.now) result }
{
    let (first, second) = in_turn(part)?;
    let pairs = Pairs::of(first)?;
    Some((pairs, second))
}
