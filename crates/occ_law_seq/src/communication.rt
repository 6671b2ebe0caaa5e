ghost use Rattle.std.specs.Prelude.{◌↔◌, IfOk, IsTrue};
ghost use Rattle.occ_syntax.specs.Tree.{alt};
ghost use Rattle.occ_syntax.specs.View.{branches, exp, tree, waiting};
ghost use Rattle.occ_law_shape.specs.occ_law.Sequence.{IoAlt};
ghost use Rattle.occ_law_shape.specs.Answer.{IsAnswer};
ghost use Rattle.occ_law_seq.specs.Communication.{Communicates, EndsAfter};

use occ_law_shape::{Form, is_skip, is_truth, opened, shape};
use occ_syntax::{Guard, Memory, Proc, Wait, same_expr};

/// c ! e = ALT(c ! e SKIP), and c ? x = ALT(c ? x SKIP)
pub(crate) fn io_alt(left: &Proc, right: &Proc) -> Result<bool, Memory>
    ensures { IfOk result (IsAnswer IoAlt (tree left.now) (tree right.now)) }
{
    shape!(right, Alt(alternatives) => Ok(is_alone(left, alternatives)))
}

/// Whether the branches are one, which waits for the communication of a part and then ends.
fn is_alone(part: &Proc, alternatives: &[(Guard, Proc)]) -> bool
    ensures { IsAnswer IoAlt (tree part.now) (alt (branches alternatives.now)) result }
{
    let [branch, rest @ ..] = alternatives else {
        return false;
    };
    ends_after(part, branch) && rest.is_empty()
}

/// Whether a branch is there in every state, waits for the communication of a part, and then ends.
fn ends_after(part: &Proc, branch: &(Guard, Proc)) -> bool
    ensures { IsTrue result ↔ EndsAfter (tree part.now) (exp branch.now.0.condition) (waiting branch.now.0.wait) (tree branch.now.1) }
{
    is_truth(&branch.0.condition) && is_skip(&branch.1) && communicates(part, &branch.0.wait)
}

/// Whether a part is the communication that a guard waits for.
fn communicates(part: &Proc, wait: &Wait) -> bool
    ensures { IsTrue result ↔ Communicates (tree part.now) (waiting wait.now) }
{
    match opened(part) {
        Form::Input(chan, var) => match wait {
            Wait::Get { chan: c, var: x } => chan == *c && var == *x,
            _ => false,
        },
        Form::Output(chan, value) => match wait {
            Wait::Put { chan: c, value: e } => chan == *c && same_expr(value, e),
            _ => false,
        },
        _ => false,
    }
}
