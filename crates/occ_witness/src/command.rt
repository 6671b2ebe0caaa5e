//! The answer to the command.

ghost use Rattle.std.specs.Prelude.{◌≢◌, ◌≤◌, ℕ, List, Option, IfOk};
ghost use Rattle.occ_tool_run.specs.occ_call.Files.{IsLoaded, IsShort, most_bytes};
ghost use Rattle.occ_witness.specs.Answers.{Answers};

use crate::finding::{self, status};
use crate::searching::find;
use occ_tool_run::{Loaded, Memory, Reply};
use std::alloc::Global;

/// The reply to two files, of a program and of a behaviour as `same` prints it: a schedule with which the command `run` shows the
/// behaviour.
///
/// | status | comes exactly where | text |
/// |---|---|---|
/// | 0 | the program has the behaviour, and the schedule isn't too long | the schedule |
/// | 1 | the program hasn't the behaviour | `NO`, as `belongs` says |
/// | 3 | a text is refused, as by `belongs`, or the schedule that shows the behaviour is too long | the refusal |
pub fn witness(alloc: Global, program: &Loaded, text: &Loaded) -> Result<Reply, Memory>
    requires program { IsShort most_bytes program.now }
    requires text { IsShort most_bytes text.now }
    ensures answers { IfOk result (λ reply. (one two : Option (List ℕ)) → IsLoaded most_bytes one program.now
        → IsLoaded most_bytes two text.now → Answers one two reply.status reply.text.items) }
    ensures status { IfOk result (λ reply. reply.status ≤ 3) }
    ensures usage { IfOk result (λ reply. reply.status ≢ 2) }
{
    let found = find(alloc, program, text)?;
    Ok(Reply {
        status: status(&found),
        text: finding::text(alloc, found)?,
    })
}
