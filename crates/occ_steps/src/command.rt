//! The answers to the command.

ghost use Rattle.std.specs.Prelude.{◌≡◌, ◌⊎◌, ℕ, List, Option, IfOk};
ghost use Rattle.occ_tool_run.specs.occ_call.Files.{IsLoaded, IsShort, most_bytes};
ghost use Rattle.occ_steps.specs.Answers.{Answers, AnswersAtStart};

use crate::finding::reply;
use crate::listing::{list, list_at_start};
use occ_tool_run::{Loaded, Memory, Reply};
use std::alloc::Global;

/// The reply to two files, of a program and of a schedule: the steps that can be taken behind the schedule, and how each part of the
/// program stands there.
///
/// | status | comes exactly where | text |
/// |---|---|---|
/// | 0 | the command `run` follows the schedule | the steps and the stands |
/// | 3 | `run` refuses a file or a step | what `run` says |
pub fn steps(alloc: Global, program: &Loaded, schedule: &Loaded) -> Result<Reply, Memory>
    requires program { IsShort most_bytes program.now }
    requires schedule { IsShort most_bytes schedule.now }
    ensures answers { IfOk result (λ reply. (one two : Option (List ℕ)) → IsLoaded most_bytes one program.now
        → IsLoaded most_bytes two schedule.now → Answers one two reply.status reply.text.items) }
    ensures status { IfOk result (λ reply. (reply.status ≡ 0) ⊎ (reply.status ≡ 3)) }
{
    let found = list(alloc, program, schedule)?;
    reply(alloc, found)
}

/// The reply to the file of a program: the steps that can be taken at the start, where all variables of the interface are 0, and how each
/// part of the program stands there.
///
/// | status | comes exactly where | text |
/// |---|---|---|
/// | 0 | the program is accepted | the steps and the stands |
/// | 3 | it is refused | the line that refuses it |
pub fn steps_at_start(alloc: Global, program: &Loaded) -> Result<Reply, Memory>
    requires { IsShort most_bytes program.now }
    ensures answers { IfOk result (λ reply. (file : Option (List ℕ)) → IsLoaded most_bytes file program.now
        → AnswersAtStart file reply.status reply.text.items) }
    ensures status { IfOk result (λ reply. (reply.status ≡ 0) ⊎ (reply.status ≡ 3)) }
{
    let found = list_at_start(alloc, program)?;
    reply(alloc, found)
}
