ghost use Rattle.std.specs.Prelude.{◌≡◌, IfOk, true};
ghost use Rattle.occ_syntax.specs.Tree.{alt, and_branch, no_branch, skip, truth};
ghost use Rattle.occ_syntax.specs.View.{tree, waiting};
ghost use Rattle.occ_law_seq.specs.occ_law.Instances.{IsOnly, sizes};
ghost use Rattle.occ_law_seq.specs.occ_law.Sequence.{IoAlt};
ghost use Rattle.occ_law_right.specs.Communication.{IsWait};

use occ_law_seq::{Form, Place, alt_of, opened};
use occ_syntax::{Alternatives, Expr, Guard, Memory, Proc, Wait};
use std::alloc::Global;

/// c ! e = ALT(c ! e SKIP), and c ? x = ALT(c ? x SKIP)
pub(crate) fn io_alt(alloc: Global, left: &Proc, place: Place) -> Result<Option<Proc>, Memory>
    ensures { IfOk result (IsOnly (IoAlt (sizes place)) (tree left.now)) }
{
    if !place.is_whole() {
        return Ok(None);
    }
    let found = wait_of(alloc, left)?;
    let Some(wait) = found else {
        return Ok(None);
    };
    Ok(Some(ending(alloc, wait)?))
}

/// What a guard waits for that does what a part does; None exactly where the part neither inputs nor outputs.
fn wait_of(alloc: Global, part: &Proc) -> Result<Option<Wait>, Memory>
    ensures { IfOk result (IsWait (tree part.now)) }
{
    match opened(part) {
        Form::Input(chan, var) => Ok(Some(Wait::Get { chan, var })),
        Form::Output(chan, value) => {
            let value = value.copy(alloc)?;
            Ok(Some(Wait::Put { chan, value }))
        }
        _ => Ok(None),
    }
}

/// The ALT of one branch, which is there in every state, waits, and then ends.
fn ending(alloc: Global, wait: Wait) -> Result<Proc, Memory>
    ensures { IfOk result (λ made. tree made ≡ alt (and_branch (truth true) (waiting wait) skip no_branch)) }
{
    let mut alternatives = Alternatives::new(alloc);
    let condition = Expr::Bool(true);
    alternatives.push((Guard { condition, wait }, Proc::Skip))?;
    Ok(alt_of(alternatives))
}
