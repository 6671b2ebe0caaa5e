//! The answer to two files, by the traces of their programs.

ghost use Rattle.std.specs.Prelude.{◌≢◌, ℕ, List, Option, IfOk};
ghost use Rattle.occ_tool_run.specs.occ_call.Files.{IsLoaded, IsShort, most_bytes};
ghost use Rattle.occ_tool_run.specs.occ_call.Ran.{IsOwnStatus};
ghost use Rattle.occ_tool_run.specs.Pairs.{IsOneKnown};
ghost use Rattle.occ_tool_run.specs.Stored.{seen};
ghost use Rattle.occ_tool_run.specs.Texts.{IsPrintable, status_of};
ghost use Rattle.occ_lts.specs.Traces.{AnswersTraces, Compares, ComparesAll};

use occ_syntax::{Memory, Names};
use occ_tool_run::accept::{accept, accept_first, refused};
use occ_tool_run::answer::{Answer, status, text};
use occ_tool_run::judge::have_one_interface;
use occ_tool_run::{Accepted, Loaded, Reply, Side};
use occ_traces::traced;
use std::alloc::Global;

/// The reply to two files: whether each trace of the second program is one of the first's.
///
/// | status | comes exactly where | text |
/// |---|---|---|
/// | 0 | each is, from every state | `REFINES` |
/// | 1 | some isn't | `DIFFER`, and the behaviour of the second that shows the shortest such trace |
/// | 3 | a text is refused | the line that refuses the first that is |
/// | 7 | both programs are accepted, and their interfaces differ | the line that says so |
pub fn traces(alloc: Global, first: &Loaded, second: &Loaded) -> Result<Reply, Memory>
    requires first { IsShort most_bytes first.now }
    requires second { IsShort most_bytes second.now }
    ensures answers { IfOk result (λ reply. (one two : Option (List ℕ)) → IsLoaded most_bytes one first.now
        → IsLoaded most_bytes two second.now → AnswersTraces one two reply.status reply.text.items) }
    ensures status { IfOk result (λ reply. IsOwnStatus reply.status) }
    ensures usage { IfOk result (λ reply. reply.status ≢ 2) }
{
    let answer = compared(alloc, first, second)?;
    Ok(Reply {
        status: status(&answer),
        text: text(alloc, answer)?,
    })
}

/// The answer to two files, of which the first is read first.
fn compared(alloc: Global, first: &Loaded, second: &Loaded) -> Result<Answer, Memory>
    requires first { IsShort most_bytes first.now }
    requires second { IsShort most_bytes second.now }
    ensures compares { IfOk result (ComparesAll first.now second.now) }
    ensures printable { IfOk result IsPrintable }
    ensures status { IfOk result (λ answer. IsOwnStatus (status_of answer)) }
    ensures usage { IfOk result (λ answer. status_of answer ≢ 2) }
{
    let mut names = Names::new(alloc);
    let left = match accept_first(alloc, &mut names, first) {
        Ok(accepted) => accepted,
        Err(refusal) => return refused(names, Side::First, refusal),
    };
    let right = match accept(alloc, &mut names, second) {
        Ok(accepted) => accepted,
        Err(refusal) => return refused(names, Side::Second, refusal),
    };
    compare(alloc, names, &left, &right)
}

/// The answer to two accepted programs.
fn compare(alloc: Global, names: Names, left: &Accepted, right: &Accepted) -> Result<Answer, Memory>
    requires { IsOneKnown names left.now.program right.now.program }
    ensures compares { IfOk result (Compares (seen left.now.program) names (seen right.now.program)) }
    ensures printable { IfOk result IsPrintable }
    ensures status { IfOk result (λ answer. IsOwnStatus (status_of answer)) }
    ensures usage { IfOk result (λ answer. status_of answer ≢ 2) }
{
    let one = left.program();
    let two = right.program();
    if !have_one_interface(one.params.items(), two.params.items()) {
        return Ok(Answer::InterfacesDiffer);
    }
    let refined = traced(alloc, left, right)?;
    Ok(Answer::Allowed(names, refined))
}
