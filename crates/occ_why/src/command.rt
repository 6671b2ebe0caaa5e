//! The answers to the command.

ghost use Rattle.std.specs.Prelude.{◌≡◌, ◌≢◌, ◌≤◌, ℕ, List, Option, IfOk, IfSome};
ghost use Rattle.occ_tool_run.specs.occ_behaviour.Members.{VerdictIsNamed};
ghost use Rattle.occ_tool_run.specs.Texts.{FoundIsNamed};
ghost use Rattle.occ_tool_run.specs.occ_call.Files.{IsLoaded, IsShort, most_bytes};
ghost use Rattle.occ_tool_run.specs.occ_call.Ran.{IsOwnStatus};
ghost use Rattle.occ_why.specs.Answers.{Replies, RepliesApart, TellsFound, TellsVerdict};

use crate::explaining::{apart, stuck};
use crate::given::Given;
use crate::shown::lines_of;
use occ_tool_run::Reply;
use occ_tool_run::answer::Answer;
use occ_tool_run::judge::{Question, judge};
use occ_tool_run::stuck::seek;
use occ_why_text::{Behaviour, Memory, Names, Verdict};
use std::alloc::Global;

/// The reply to two files of programs: why they differ, and what tells them apart; None exactly where `same` refuses one of them.
///
/// | status | comes exactly where | text |
/// |---|---|---|
/// | 0 | the programs mean the same | the answer of `same` |
/// | 1 | they differ | it begins with DIFFER, and ends with a behaviour that only one of them has |
/// | 7 | both programs are accepted, and their interfaces differ | the answer of `same` |
#[tactic(auto, using(crate::proofs::Answering::unlike_told, crate::proofs::Answering::own_low, crate::proofs::Answering::own_seven))]
pub fn why_apart(alloc: Global, first: Given, second: Given) -> Result<Option<Reply>, Memory>
    requires first { IsShort most_bytes first.text.now }
    requires second { IsShort most_bytes second.text.now }
    ensures answers { IfOk result (λ told. (one two : Option (List ℕ)) → IsLoaded most_bytes one first.entry.text.now
        → IsLoaded most_bytes two second.entry.text.now → RepliesApart one two told) }
    ensures status { IfOk result (λ told. IfSome told (λ reply. IsOwnStatus reply.status)) }
    ensures usage { IfOk result (λ told. IfSome told (λ reply. reply.status ≢ 2)) }
{
    match judge(alloc, Question::WhetherSame, first.text, second.text)? {
        Answer::Compared(names, verdict) => {
            let reply = compared(alloc, &names, verdict, first, second)?;
            Ok(Some(reply))
        }
        Answer::InterfacesDiffer => {
            let reply = said(alloc, 7, b"INTERFACES DIFFER\n")?;
            Ok(Some(reply))
        }
        _ => Ok(None),
    }
}

/// The reply to two programs that were compared.
#[tactic(auto, using(crate::proofs::Answering::differs_so))]
fn compared(
    alloc: Global,
    names: &Names,
    verdict: Verdict,
    first: Given,
    second: Given,
) -> Result<Reply, Memory>
    requires named { VerdictIsNamed names.now verdict }
    requires first { IsShort most_bytes first.text.now }
    requires second { IsShort most_bytes second.text.now }
    ensures tells { IfOk result (TellsVerdict names.now verdict first.entry.text.now second.entry.text.now) }
    ensures status { IfOk result (λ reply. reply.status ≤ 1) }
{
    match verdict {
        Verdict::Same => {
            let reply = said(alloc, 0, b"SAME\n")?;
            Ok(reply)
        }
        Verdict::Differ { behaviour, only } => {
            let lines = lines_of(alloc, names, &behaviour)?;
            let text = apart(alloc, first, second, lines, only)?;
            Ok(Reply { status: 1, text })
        }
    }
}

/// The reply to the file of a program: why it gets stuck; None exactly where `deadlock` refuses it.
///
/// | status | comes exactly where | text |
/// |---|---|---|
/// | 0 | it can't | FREE |
/// | 1 | it can | it begins with DEADLOCK, and ends with the first behaviour by which it gets stuck |
pub fn why(alloc: Global, program: Given) -> Result<Option<Reply>, Memory>
    requires { IsShort most_bytes program.text.now }
    ensures answers { IfOk result (λ told. (file : Option (List ℕ)) → IsLoaded most_bytes file program.entry.text.now
        → Replies file told) }
    ensures status { IfOk result (λ told. IfSome told (λ reply. reply.status ≤ 1)) }
{
    match seek(alloc, program.text)? {
        Answer::Sought(names, found) => {
            let reply = sought(alloc, &names, found, program)?;
            Ok(Some(reply))
        }
        _ => Ok(None),
    }
}

/// The reply to a program that may get stuck by a behaviour.
#[tactic(auto, using(crate::proofs::Answering::stuck_so))]
fn sought(
    alloc: Global,
    names: &Names,
    found: Option<Behaviour>,
    program: Given,
) -> Result<Reply, Memory>
    requires named { FoundIsNamed names.now found }
    requires program { IsShort most_bytes program.text.now }
    ensures tells { IfOk result (TellsFound names.now found) }
    ensures status { IfOk result (λ reply. reply.status ≤ 1) }
{
    match found {
        None => {
            let reply = said(alloc, 0, b"FREE\n")?;
            Ok(reply)
        }
        Some(behaviour) => {
            let lines = lines_of(alloc, names, &behaviour)?;
            let text = stuck(alloc, program, lines)?;
            Ok(Reply { status: 1, text })
        }
    }
}

/// The reply with a status and a text.
fn said(alloc: Global, status: u8, text: &[u8]) -> Result<Reply, Memory>
    ensures status { IfOk result (λ reply. reply.status ≡ status) }
    ensures text { IfOk result (λ reply. reply.text.items ≡ text.now) }
{
    let text = Vec::from_slice(alloc, text)?;
    Ok(Reply { status, text })
}
