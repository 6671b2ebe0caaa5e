//! Questions about two programs, and their answers.

ghost use Rattle.std.specs.Prelude.{◌≡◌, ◌≢◌, ◌↔◌, ℕ, List, [], Option, IfOk, IsTrue};
ghost use Rattle.std.specs.declared.cmp.Ordering.TheVariants.{Less, Equal, Greater};
ghost use Rattle.occ_run_schedule.specs.occ_behaviour.declared.behaviour.Side.TheVariants.{First, Second};
ghost use Rattle.occ_tool_run.specs.Stored.{seen};
ghost use Rattle.occ_call.specs.Files.{IsLoaded, IsShort, most_bytes};
ghost use Rattle.occ_tool_run.specs.Texts.{IsPrintable};
ghost use Rattle.occ_tool_run.specs.Answers.{Compares, Refines, Replies, Settles, Takes};
ghost use Rattle.occ_tool_run.specs.declared.accept.Refusal.TheVariants as why;
ghost use Rattle.occ_tool_run.specs.Judged.{IsRefusalAnswer, IsSayable};
ghost use Rattle.occ_tool_run.specs.Pairs.{IsOneKnown, SettlesAll};

use crate::accept::{Refusal, accept, accept_first, refused};
use crate::answer::Answer;
use occ_call::Loaded;
use occ_refine::{decide, refined};
use occ_run_schedule::{Accepted, Side};
use occ_syntax::{Kind, Memory, Name, Names};
use std::alloc::Global;
use std::cmp::Ordering;

/// What is asked of two programs.
#[derive(Clone, Copy, Debug)]
pub enum Question {
    /// Whether they mean the same.
    WhetherSame,
    /// Whether the second does no more than the first allows.
    WhetherRefined,
}

/// The answer to two files of whose programs this is asked. The first that is refused decides. They are read in the order of
/// their bytes, so that names have the same numbers whichever file is given first.
pub fn judge(
    alloc: Global,
    question: Question,
    first: &Loaded,
    second: &Loaded,
) -> Result<Answer, Memory>
    requires first { IsShort most_bytes first.now }
    requires second { IsShort most_bytes second.now }
    ensures settles { IfOk result (λ answer. (one two : Option (List ℕ)) → IsLoaded most_bytes one first.now
        → IsLoaded most_bytes two second.now → Settles question one two answer) }
    ensures printable { IfOk result IsPrintable }
    ensures usage { IfOk result (λ answer. answer ≢ Answer.Usage) }
{
    match first.order(second) {
        Ordering::Less => in_order(alloc, question, first, second),
        Ordering::Equal => alike(alloc, question, first),
        Ordering::Greater => turned(alloc, question, first, second),
    }
}

/// The answer to two files, of which the first is read first.
fn in_order(
    alloc: Global,
    question: Question,
    first: &Loaded,
    second: &Loaded,
) -> Result<Answer, Memory>
    requires first { IsShort most_bytes first.now }
    requires second { IsShort most_bytes second.now }
    ensures settles { IfOk result (SettlesAll Less question first.now second.now) }
    ensures printable { IfOk result IsPrintable }
    ensures usage { IfOk result (λ answer. answer ≢ Answer.Usage) }
{
    let mut names = Names::new(alloc);
    let left = match accept_first(alloc, &mut names, first) {
        Ok(accepted) => accepted,
        Err(refusal) => return refused(names, Side::First, refusal),
    };
    let right = match accept(alloc, &mut names, second) {
        Ok(accepted) => accepted,
        Err(refusal) => return refused(names, Side::Second, refusal),
    };
    reply(alloc, question, names, &left, &right)
}

/// The answer to two files with one text, which is read once.
fn alike(alloc: Global, question: Question, text: &Loaded) -> Result<Answer, Memory>
    requires { IsShort most_bytes text.now }
    ensures settles { IfOk result (λ answer. (second : Loaded) → SettlesAll Equal question text.now second answer) }
    ensures printable { IfOk result IsPrintable }
    ensures usage { IfOk result (λ answer. answer ≢ Answer.Usage) }
{
    let mut names = Names::new(alloc);
    match accept_first(alloc, &mut names, text) {
        Ok(accepted) => reply(alloc, question, names, &accepted, &accepted),
        Err(refusal) => refused(names, Side::First, refusal),
    }
}

/// The answer to two files, of which the second is read first.
fn turned(
    alloc: Global,
    question: Question,
    first: &Loaded,
    second: &Loaded,
) -> Result<Answer, Memory>
    requires first { IsShort most_bytes first.now }
    requires second { IsShort most_bytes second.now }
    ensures settles { IfOk result (SettlesAll Greater question first.now second.now) }
    ensures printable { IfOk result IsPrintable }
    ensures usage { IfOk result (λ answer. answer ≢ Answer.Usage) }
{
    let mut names = Names::new(alloc);
    let right = match accept_first(alloc, &mut names, second) {
        Ok(accepted) => accepted,
        Err(refusal) => return refused_behind(alloc, names, first, refusal),
    };
    match accept(alloc, &mut names, first) {
        Ok(left) => reply(alloc, question, names, &left, &right),
        Err(refusal) => refused(names, Side::First, refusal),
    }
}

/// The answer to two files, of which the second was read first and is refused: the first may have a fault too.
fn refused_behind(
    alloc: Global,
    names: Names,
    first: &Loaded,
    refusal: Refusal,
) -> Result<Answer, Memory>
    requires first { IsShort most_bytes first.now }
    requires sayable { IsSayable names refusal }
    ensures told { IfOk result (λ answer. (file : Option (List ℕ)) → IsLoaded most_bytes file first.now
        → Takes First file [] (λ new p. IsRefusalAnswer names Second refusal) answer) }
    ensures known { IfOk result (λ answer. refusal ≢ why.Memory) }
    ensures printable { IfOk result IsPrintable }
    ensures usage { IfOk result (λ answer. answer ≢ Answer.Usage) }
{
    if is_memory(&refusal) {
        return Err(Memory);
    }
    let mut own = Names::new(alloc);
    match accept_first(alloc, &mut own, first) {
        Ok(_accepted) => refused(names, Side::Second, refusal),
        Err(refusal) => refused(own, Side::First, refusal),
    }
}

fn is_memory(refusal: &Refusal) -> bool
    ensures { IsTrue result ↔ (refusal.now ≡ why.Memory) }
{
    matches!(refusal, Refusal::Memory)
}

/// The answer to two accepted programs.
fn reply(
    alloc: Global,
    question: Question,
    names: Names,
    left: &Accepted,
    right: &Accepted,
) -> Result<Answer, Memory>
    requires { IsOneKnown names left.now.program right.now.program }
    ensures settles { IfOk result (Replies question (seen left.now.program) names (seen right.now.program)) }
    ensures printable { IfOk result IsPrintable }
    ensures usage { IfOk result (λ answer. answer ≢ Answer.Usage) }
{
    match question {
        Question::WhetherSame => compared(alloc, names, left, right),
        Question::WhetherRefined => allowed(alloc, names, left, right),
    }
}

/// Whether the second of two accepted programs refines the first.
fn allowed(alloc: Global, names: Names, left: &Accepted, right: &Accepted) -> Result<Answer, Memory>
    requires { IsOneKnown names left.now.program right.now.program }
    ensures settles { IfOk result (Refines (seen left.now.program) names (seen right.now.program)) }
    ensures printable { IfOk result IsPrintable }
    ensures usage { IfOk result (λ answer. answer ≢ Answer.Usage) }
{
    let one = left.program();
    let two = right.program();
    if !have_one_interface(one.params.items(), two.params.items()) {
        return Ok(Answer::InterfacesDiffer);
    }
    let refined = refined(alloc, left, right)?;
    Ok(Answer::Allowed(names, refined))
}

/// Whether two accepted programs mean the same.
fn compared(
    alloc: Global,
    names: Names,
    left: &Accepted,
    right: &Accepted,
) -> Result<Answer, Memory>
    requires { IsOneKnown names left.now.program right.now.program }
    ensures settles { IfOk result (Compares (seen left.now.program) names (seen right.now.program)) }
    ensures printable { IfOk result IsPrintable }
    ensures usage { IfOk result (λ answer. answer ≢ Answer.Usage) }
{
    let one = left.program();
    let two = right.program();
    if !have_one_interface(one.params.items(), two.params.items()) {
        return Ok(Answer::InterfacesDiffer);
    }
    let verdict = decide(alloc, left, right)?;
    Ok(Answer::Compared(names, verdict))
}

/// Whether two parameter lists are equal.
pub fn have_one_interface(left: &[(Name, Kind)], right: &[(Name, Kind)]) -> bool
    ensures { IsTrue result ↔ (left.now ≡ right.now) }
{
    match left {
        [] => right.is_empty(),
        [first, left @ ..] => match right {
            [] => false,
            [second, right @ ..] => {
                if is_same_parameter(*first, *second) {
                    have_one_interface(left, right)
                } else {
                    false
                }
            }
        },
    }
}

fn is_same_parameter(left: (Name, Kind), right: (Name, Kind)) -> bool
    ensures { IsTrue result ↔ (left ≡ right) }
{
    left == right
}
