//! What a command reads, and the reply to it.

ghost use Rattle.std.specs.Prelude.{◌≡◌, None, IfOk};
ghost use Rattle.occ_witness.specs.occ_call.Files.{AreShort};
ghost use Rattle.occ_witness.specs.occ_call.Ran.{IsOwnStatus};
ghost use Rattle.occ_workshop_run.specs.Answers.{IsReplyTo, wanted_of};
ghost use Rattle.occ_workshop_run.specs.Words.{AskForTwoPrograms, job, usage_text};

use crate::explaining::{explained, explained_apart};
use crate::words::Command;
use occ_check::{check, explain};
use occ_draw::{Memory, draw};
use occ_lts::{aut, deterministic, promela, traces};
use occ_prove::prove;
use occ_steps::{steps, steps_at_start};
use occ_why::Given;
use occ_witness::{Contents, MOST_BYTES, MOST_TABLE_BYTES, Named, Reply, Wanted, witness};
use std::alloc::Global;

/// The files that a command reads, and how many bytes each may have.
pub(crate) fn wanted<'a>(command: &Command<'a>) -> Wanted<'a>
    ensures { result ≡ wanted_of command.now }
{
    match command {
        Command::Usage => Wanted::Nothing,
        Command::Check { program }
        | Command::Aut { program }
        | Command::Promela { program }
        | Command::Steps { program }
        | Command::Why { program }
        | Command::Deterministic { program } => { Wanted::One(Named::new(program, MOST_BYTES)) }
        Command::Draw { text } | Command::Explain { text, .. } => {
            Wanted::One(Named::new(text, MOST_TABLE_BYTES))
        }
        Command::Prove { first, second }
        | Command::WhyApart { first, second }
        | Command::Traces { first, second } => {
            Wanted::Two(
                Named::new(first, MOST_BYTES),
                Named::new(second, MOST_BYTES),
            )
        }
        Command::Witness { program, text } | Command::StepsAfter { program, text } => {
            Wanted::Two(
                Named::new(program, MOST_BYTES),
                Named::new(text, MOST_BYTES),
            )
        }
    }
}

/// The reply to a command whose files were read.
pub(crate) fn reply(alloc: Global, command: &Command, contents: &Contents) -> Result<Reply, Memory>
    requires { AreShort (wanted_of command.now) contents.now }
    ensures answers { IfOk result (IsReplyTo command.now contents.now) }
    ensures status { IfOk result (λ reply. IsOwnStatus reply.status) }
    ensures apart { IfOk result (λ reply. reply.status ≡ 7 → AskForTwoPrograms (job command.now)) }
    ensures usage { IfOk result (λ reply. reply.status ≡ 2 → job command.now ≡ None) }
    ensures unfit { job command.now ≡ None → IfOk result (λ reply. reply.status ≡ 2) }
{
    let Contents { first, second } = contents;
    match command {
        Command::Usage => usage(alloc),
        Command::Check { program } => check(alloc, program, first),
        Command::Draw { .. } => draw(alloc, first),
        Command::Explain { text, refusal } => explain(alloc, text, refusal, first),
        Command::Prove { .. } => prove(alloc, first, second),
        Command::Witness { .. } => witness(alloc, first, second),
        Command::Aut { .. } => aut(alloc, first),
        Command::Promela { .. } => promela(alloc, first),
        Command::Steps { .. } => steps_at_start(alloc, first),
        Command::StepsAfter { .. } => steps(alloc, first, second),
        Command::Why { program } => explained(alloc, program, first),
        Command::WhyApart {
            first: one,
            second: two,
        } => explained_apart(
            alloc,
            Given {
                name: one,
                text: first,
            },
            Given {
                name: two,
                text: second,
            },
        ),
        Command::Traces { .. } => traces(alloc, first, second),
        Command::Deterministic { .. } => deterministic(alloc, first),
    }
}

/// The reply to words that don't fit.
fn usage(alloc: Global) -> Result<Reply, Memory>
    ensures status { IfOk result (λ reply. reply.status ≡ 2) }
    ensures text { IfOk result (λ reply. reply.text.items ≡ usage_text) }
{
    Ok(Reply {
        status: 2,
        text: Vec::from_slice(
            alloc,
            b"USAGE check A, steps A, steps A T, why A, why A B, draw T, aut A, promela A, deterministic A, prove A B, traces A B, witness A T, explain T REFUSAL\n",
        )?,
    })
}
