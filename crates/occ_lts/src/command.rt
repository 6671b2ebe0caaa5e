//! The answers to the commands.

ghost use Rattle.std.specs.Prelude.{◌≡◌, ◌⊎◌, ℕ, List, Option, IfOk};
ghost use Rattle.occ_tool_run.specs.occ_call.Files.{IsLoaded, IsShort, most_bytes};
ghost use Rattle.occ_tool_run.specs.Judged.{HasInterface, IsSayable};
ghost use Rattle.occ_tool_run.specs.Stored.{seen};
ghost use Rattle.occ_lts.specs.Answers.{AnswersAut, AnswersPromela, IsGraphOf, IsRefusal};

use crate::{graph_of, graph_text};
use occ_promela::model_of;
use occ_syntax::{Memory, Names};
use occ_tool_run::accept::{Refusal, accept_first, refused};
use occ_tool_run::answer::{status, text};
use occ_tool_run::{Accepted, Loaded, Reply, Side, normal_table};
use std::alloc::Global;

/// The reply to a file: of a program the transition system of its normal table.
///
/// | status | comes exactly where | text |
/// |---|---|---|
/// | 0 | the program is accepted | its transition system |
/// | 3 | it is refused | the line that refuses it |
pub fn aut(alloc: Global, program: &Loaded) -> Result<Reply, Memory>
    requires { IsShort most_bytes program.now }
    ensures answers { IfOk result (λ reply. (file : Option (List ℕ)) → IsLoaded most_bytes file program.now
        → AnswersAut file reply.status reply.text.items) }
    ensures status { IfOk result (λ reply. (reply.status ≡ 0) ⊎ (reply.status ≡ 3)) }
{
    let mut names = Names::new(alloc);
    match accept_first(alloc, &mut names, program) {
        Ok(accepted) => write(alloc, &names, &accepted),
        Err(refusal) => refuse(alloc, names, refusal),
    }
}

/// The transition system of an accepted program.
fn write(alloc: Global, names: &Names, accepted: &Accepted) -> Result<Reply, Memory>
    requires { HasInterface names.now accepted.now.program }
    ensures graph { IfOk result (λ reply. IsGraphOf names.now (seen accepted.now.program) reply.status reply.text.items) }
    ensures status { IfOk result (λ reply. reply.status ≡ 0) }
{
    let table = normal_table(alloc, names, accepted)?;
    let graph = graph_of(alloc, &table)?;
    Ok(Reply {
        status: 0,
        text: graph_text(alloc, names, &graph)?,
    })
}

/// The reply to a file: of a program its model in Promela.
///
/// | status | comes exactly where | text |
/// |---|---|---|
/// | 0 | the program is accepted | the model, of which nothing is said |
/// | 3 | it is refused | the line that refuses it |
pub fn promela(alloc: Global, program: &Loaded) -> Result<Reply, Memory>
    requires { IsShort most_bytes program.now }
    ensures answers { IfOk result (λ reply. (file : Option (List ℕ)) → IsLoaded most_bytes file program.now
        → AnswersPromela file reply.status reply.text.items) }
    ensures status { IfOk result (λ reply. (reply.status ≡ 0) ⊎ (reply.status ≡ 3)) }
{
    let mut names = Names::new(alloc);
    match accept_first(alloc, &mut names, program) {
        Ok(accepted) => write_model(alloc, names, &accepted),
        Err(refusal) => refuse(alloc, names, refusal),
    }
}

/// The model of an accepted program.
fn write_model(alloc: Global, names: Names, accepted: &Accepted) -> Result<Reply, Memory>
    ensures { IfOk result (λ reply. reply.status ≡ 0) }
{
    Ok(Reply {
        status: 0,
        text: model_of(alloc, names, accepted.program())?,
    })
}

/// The reply that refuses a program, or out of memory where that is why.
pub(crate) fn refuse(alloc: Global, names: Names, refusal: Refusal) -> Result<Reply, Memory>
    requires { IsSayable names refusal }
    ensures refusal { IfOk result (λ reply. IsRefusal names refusal reply.status reply.text.items) }
    ensures status { IfOk result (λ reply. reply.status ≡ 3) }
{
    let answer = refused(names, Side::First, refusal)?;
    Ok(Reply {
        status: status(&answer),
        text: text(alloc, answer)?,
    })
}
