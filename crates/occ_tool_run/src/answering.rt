//! What a command reads, and the answer to it.

ghost use Rattle.std.specs.Prelude.{◌≡◌, None, IfOk};
ghost use Rattle.occ_call.specs.Files.{AreShort};
ghost use Rattle.occ_call.specs.Ran.{IsOwnStatus};
ghost use Rattle.occ_tool_run.specs.Replies.{AreStagesInRange, IsAnswerOf, IsReplyTo, wanted_of};
ghost use Rattle.occ_tool_run.specs.Texts.{IsPrintable};
ghost use Rattle.occ_tool_words.specs.Words.{job};

use crate::answer::{Answer, status, text};
use crate::judge::{Question, judge};
use crate::measure::stress;
use crate::member::belongs;
use crate::normal::{check, normalise};
use crate::replaying::replay;
use crate::running::step;
use crate::stuck::seek;
use crate::to_normal::derive;
use crate::transforming::{expand, transform};
use occ_call::{Contents, MOST_BYTES, MOST_SCRIPT_BYTES, MOST_TABLE_BYTES, Named, Reply, Wanted};
use occ_syntax::Memory;
use occ_tool_words::Command;
use std::alloc::Global;

/// The files that a command reads, and how many bytes each may have.
pub(crate) fn wanted<'a>(command: &Command<'a>) -> Wanted<'a>
    ensures { result ≡ wanted_of command.now }
{
    match command {
        Command::Usage | Command::Stress { .. } => Wanted::Nothing,
        Command::Same { first, second } | Command::Refine { first, second } => {
            Wanted::Two(
                Named::new(first, MOST_BYTES),
                Named::new(second, MOST_BYTES),
            )
        }
        Command::Belongs { program, text } | Command::Run { program, text } => {
            Wanted::Two(
                Named::new(program, MOST_BYTES),
                Named::new(text, MOST_BYTES),
            )
        }
        Command::Transform { program, text } => {
            Wanted::Two(
                Named::new(program, MOST_BYTES),
                Named::new(text, MOST_SCRIPT_BYTES),
            )
        }
        Command::Normalise { program } | Command::Deadlock { program } => {
            Wanted::One(Named::new(program, MOST_BYTES))
        }
        Command::Derive { program } | Command::Expand { program, .. } => {
            Wanted::One(Named::new(program, MOST_BYTES))
        }
        Command::Normal { text } => Wanted::One(Named::new(text, MOST_TABLE_BYTES)),
        Command::Replay { text } => Wanted::One(Named::new(text, MOST_SCRIPT_BYTES)),
    }
}

/// The reply to a command whose files were read.
pub(crate) fn reply(alloc: Global, command: &Command, contents: &Contents) -> Result<Reply, Memory>
    requires stages { AreStagesInRange (job command.now) }
    requires short { AreShort (wanted_of command.now) contents.now }
    ensures answers { IfOk result (IsReplyTo command.now contents.now) }
    ensures status { IfOk result (λ reply. IsOwnStatus reply.status) }
    ensures usage { IfOk result (λ reply. reply.status ≡ 2 → job command.now ≡ None) }
    ensures unfit { job command.now ≡ None → IfOk result (λ reply. reply.status ≡ 2) }
{
    let answer = answer(alloc, command, contents)?;
    Ok(Reply {
        status: status(&answer),
        text: text(alloc, answer)?,
    })
}

/// The answer to a command whose files were read.
fn answer(alloc: Global, command: &Command, contents: &Contents) -> Result<Answer, Memory>
    requires stages { AreStagesInRange (job command.now) }
    requires short { AreShort (wanted_of command.now) contents.now }
    ensures answers { IfOk result (IsAnswerOf command.now contents.now) }
    ensures printable { IfOk result IsPrintable }
    ensures usage { IfOk result (λ answer. answer ≡ Answer.Usage → job command.now ≡ None) }
    ensures unfit { job command.now ≡ None → IfOk result (λ answer. answer ≡ Answer.Usage) }
{
    let Contents { first, second } = contents;
    match command {
        Command::Usage => Ok(Answer::Usage),
        Command::Same { .. } => judge(alloc, Question::WhetherSame, first, second),
        Command::Normalise { .. } => normalise(alloc, first),
        Command::Normal { .. } => check(alloc, first),
        Command::Belongs { .. } => belongs(alloc, first, second),
        Command::Stress { shape, stages } => stress(alloc, *shape, *stages),
        Command::Refine { .. } => judge(alloc, Question::WhetherRefined, first, second),
        Command::Deadlock { .. } => seek(alloc, first),
        Command::Replay { .. } => replay(alloc, first),
        Command::Run { .. } => step(alloc, first, second),
        Command::Transform { .. } => transform(alloc, first, second),
        Command::Expand { path, .. } => expand(alloc, first, path),
        Command::Derive { .. } => derive(alloc, first),
    }
}
