//! The reply for another text than a program.

ghost use Rattle.std.specs.Prelude.{◌≡◌, IfOk};

use crate::command::bytes_of;
use occ_check_other::explained;
use occ_tool_run::{Loaded, Memory, Reply};
use std::alloc::Global;

/// The reply that explains why the text in a file of that name was refused: the kind of text that was wanted, the line and the words for
/// the fault, as `script 3 Form`.
pub fn explain(alloc: Global, name: &str, refusal: &str, text: &Loaded) -> Result<Reply, Memory>
    ensures { IfOk result (λ reply. reply.status ≡ 3) }
{
    let text = explained(alloc, name, refusal, bytes_of(text))?;
    Ok(Reply { status: 3, text })
}
