//! The answer to the command.

ghost use Rattle.std.specs.Prelude.{◌≢◌, ℕ, List, Option, IfOk};
ghost use Rattle.occ_tool_run.specs.occ_call.Files.{IsLoaded, IsShort, most_bytes};
ghost use Rattle.occ_tool_run.specs.occ_call.Ran.{IsOwnStatus};
ghost use Rattle.occ_prove.specs.Answers.{Answers};

use crate::proof::{status, text};
use crate::proving::proof_of;
use occ_syntax::Memory;
use occ_tool_run::{Loaded, Reply};
use std::alloc::Global;

/// The reply to two files, of programs that may mean the same:
///
/// | status | comes exactly where | text |
/// |---|---|---|
/// | 0 | steps lead from the one program to the other; both mean the same, and the names behind PROC differ | the script; `SAME` |
/// | 1 | the programs differ | the answer of `same` |
/// | 3 | a text is refused, or both programs mean the same and their normal program is too long | the refusal |
/// | 7 | both programs are accepted, and their interfaces differ | the line that says so |
pub fn prove(alloc: Global, first: &Loaded, second: &Loaded) -> Result<Reply, Memory>
    requires first { IsShort most_bytes first.now }
    requires second { IsShort most_bytes second.now }
    ensures answers { IfOk result (λ reply. (one two : Option (List ℕ)) → IsLoaded most_bytes one first.now
        → IsLoaded most_bytes two second.now → Answers one two reply.status reply.text.items) }
    ensures status { IfOk result (λ reply. IsOwnStatus reply.status) }
    ensures usage { IfOk result (λ reply. reply.status ≢ 2) }
{
    let proof = proof_of(alloc, first, second)?;
    Ok(Reply {
        status: status(&proof),
        text: text(alloc, proof)?,
    })
}
