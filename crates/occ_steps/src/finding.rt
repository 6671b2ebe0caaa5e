//! What files are answered with, its status and its text.

ghost use Rattle.std.specs.Prelude.{◌≡◌, IfOk};
ghost use Rattle.occ_steps.specs.Findings.{IsSayable, status_of_finding, text_of_finding};

use occ_tool_run::answer::{self, Answer};
use occ_tool_run::{Memory, Reply};
use std::alloc::Global;

/// What files are answered with.
#[derive(Drop)]
pub enum Finding {
    /// What `run` says of files that it refuses.
    Refused(Answer),
    /// The steps.
    Shown(Vec<u8>),
}

/// The status and the text of an answer.
pub(crate) fn reply(alloc: Global, finding: Finding) -> Result<Reply, Memory>
    requires { IsSayable finding }
    ensures status { IfOk result (λ reply. reply.status ≡ status_of_finding finding) }
    ensures text { IfOk result (λ reply. reply.text.items ≡ text_of_finding finding) }
{
    match finding {
        Finding::Refused(answer) => Ok(Reply {
            status: answer::status(&answer),
            text: answer::text(alloc, answer)?,
        }),
        Finding::Shown(text) => Ok(Reply { status: 0, text }),
    }
}
