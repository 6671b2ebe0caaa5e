//! Why a program has a behaviour, told.

ghost use Rattle.std.specs.Prelude.{codes, IfOk, IfSome};
ghost use Rattle.occ_tool_run.specs.occ_call.Files.{IsShort, most_bytes};
ghost use Rattle.occ_why.specs.Told.{Choose, IsOne, IsTold, TellAlone, TellApartBy, TellFiles};

use crate::given::Given;
use crate::reading::{Reading, read};
use crate::shown::whole;
use occ_tool_run::Witness;
use occ_why_text::{Case, Memory, Side, look_along, page, refusing, smallest_refusal};
use std::alloc::Global;

/// The text about two programs that differ, of which one alone has the behaviour of these lines.
pub(crate) fn apart(
    alloc: Global,
    first: Given,
    second: Given,
    lines: Vec<u8>,
    only: Side,
) -> Result<Vec<u8>, Memory>
    requires first { IsShort most_bytes first.text.now }
    requires second { IsShort most_bytes second.text.now }
    ensures { IfOk result (λ text. TellApartBy only first.entry.text.now second.entry.text.now lines.items text.items) }
{
    match only {
        Side::First => alone(alloc, first, second, lines),
        Side::Second => alone(alloc, second, first, lines),
    }
}

/// The text about two programs that differ, of which the first alone has the behaviour of these lines.
fn alone(alloc: Global, owner: Given, other: Given, lines: Vec<u8>) -> Result<Vec<u8>, Memory>
    requires owner { IsShort most_bytes owner.text.now }
    requires other { IsShort most_bytes other.text.now }
    ensures { IfOk result (λ text. TellAlone owner.entry.text.now other.entry.text.now lines.items text.items) }
{
    let first = Vec::from_slice(alloc, &lines)?;
    let chosen = telling(alloc, owner, other, lines)?;
    let page = either_page(alloc, owner, other, (&chosen, &first))?;
    let text = whole(alloc, b"DIFFER", behind(&page), &chosen)?;
    Ok(text)
}

/// The text about a program that gets stuck by the behaviour of these lines.
pub(crate) fn stuck(alloc: Global, program: Given, lines: Vec<u8>) -> Result<Vec<u8>, Memory>
    requires { IsShort most_bytes program.text.now }
    ensures { IfOk result (λ text. IsTold (codes "DEADLOCK") lines.items text.items) }
{
    let page = page_stuck(alloc, program, &lines)?;
    let text = whole(alloc, b"DEADLOCK", behind(&page), &lines)?;
    Ok(text)
}

/// What stands behind the first word.
fn behind(page: &[u8]) -> &[u8] {
    match page {
        [b'D', b'I', b'F', b'F', b'E', b'R', rest @ ..] => rest,
        [b'D', b'E', b'A', b'D', b'L', b'O', b'C', b'K', rest @ ..] => rest,
        _ => b"\n",
    }
}

/// The lines of the behaviour with the smallest telling refusal, where it is found and tells the programs apart; else these lines.
#[tactic(auto, using(crate::proofs::Telling::choose_given, crate::proofs::Telling::choose_found))]
fn telling(alloc: Global, owner: Given, other: Given, lines: Vec<u8>) -> Result<Vec<u8>, Memory>
    requires owner { IsShort most_bytes owner.text.now }
    requires other { IsShort most_bytes other.text.now }
    ensures { IfOk result (λ chosen. Choose owner.entry.text.now other.entry.text.now lines.items chosen.items) }
{
    match better(alloc, owner, other, &lines)? {
        Some(found) => Ok(found),
        None => Ok(lines),
    }
}

/// Other lines that tell the programs apart: those of the behaviour with the smallest telling refusal, where it is found.
fn better(
    alloc: Global,
    owner: Given,
    other: Given,
    lines: &[u8],
) -> Result<Option<Vec<u8>>, Memory>
    requires owner { IsShort most_bytes owner.text.now }
    requires other { IsShort most_bytes other.text.now }
    ensures { IfOk result (λ better. IfSome better (λ found. TellFiles owner.entry.text.now other.entry.text.now found.items)) }
{
    let Some(found) = smaller(alloc, owner, other, lines)? else {
        return Ok(None);
    };
    let Some(own) = read(alloc, owner.text, &found)? else {
        return Ok(None);
    };
    let Some(others) = read(alloc, other.text, &found)? else {
        return Ok(None);
    };
    let has = own.has_it(alloc)?;
    let other_has = others.has_it(alloc)?;
    if has && !other_has {
        Ok(Some(found))
    } else {
        Ok(None)
    }
}

/// The lines of a behaviour that refuses less, if one was found.
fn smaller(
    alloc: Global,
    owner: Given,
    other: Given,
    lines: &[u8],
) -> Result<Option<Vec<u8>>, Memory>
    requires owner { IsShort most_bytes owner.text.now }
    requires other { IsShort most_bytes other.text.now }
{
    let Some(own) = read(alloc, owner.text, lines)? else {
        return Ok(None);
    };
    let Some(others) = read(alloc, other.text, lines)? else {
        return Ok(None);
    };
    let one = own.subject(owner.name);
    let two = others.subject(other.name);
    let own_start = own.start()?;
    let other_start = others.start()?;
    let own_look = look_along(&one, own_start)?;
    let other_look = look_along(&two, other_start)?;
    match smallest_refusal((&one, &own_look), (&two, &other_look))? {
        Some(events) => Ok(Some(refusing(&one, lines, events.items())?)),
        None => Ok(None),
    }
}

/// The page about two programs and the behaviour of the first lines, by the schedule that shows the behaviour of the second lines where
/// that schedule shows the first one too.
fn either_page(
    alloc: Global,
    owner: Given,
    other: Given,
    lines: (&[u8], &[u8]),
) -> Result<Vec<u8>, Memory>
    requires owner { IsShort most_bytes owner.text.now }
    requires other { IsShort most_bytes other.text.now }
{
    let page = page_apart(alloc, owner, other, lines)?;
    if page.is_empty() {
        page_apart(alloc, owner, other, (lines.0, lines.0))
    } else {
        Ok(page)
    }
}

/// The page about two programs and the behaviour of the first lines, by the schedule that shows the behaviour of the second lines; an empty
/// one where it can't be made, or that schedule doesn't show the first behaviour.
fn page_apart(
    alloc: Global,
    owner: Given,
    other: Given,
    lines: (&[u8], &[u8]),
) -> Result<Vec<u8>, Memory>
    requires owner { IsShort most_bytes owner.text.now }
    requires other { IsShort most_bytes other.text.now }
{
    let Some(shown) = read(alloc, owner.text, lines.1)? else {
        return Ok(Vec::new(alloc));
    };
    let Witness::Schedule(schedule) = shown.witness(alloc)? else {
        return Ok(Vec::new(alloc));
    };
    let Some(own) = read(alloc, owner.text, lines.0)? else {
        return Ok(Vec::new(alloc));
    };
    let Some(others) = read(alloc, other.text, lines.0)? else {
        return Ok(Vec::new(alloc));
    };
    page_of_two(alloc, (owner.name, other.name), &own, &others, &schedule)
}

/// The page about two programs, by a schedule of the first; an empty one where it doesn't show the behaviour.
fn page_of_two<'p>(
    alloc: Global,
    names: (&'p str, &'p str),
    own: &'p Reading,
    others: &'p Reading,
    schedule: &[u8],
) -> Result<Vec<u8>, Memory>
    requires own { IsOne own.now.places.marked.accepted.program.params own.now.accepted.program own.now.behaviour }
    requires others { IsOne others.now.places.marked.accepted.program.params others.now.accepted.program others.now.behaviour }
{
    let Some(walk) = own.follow(alloc, schedule)? else {
        return Ok(Vec::new(alloc));
    };
    let two = others.subject(names.1);
    let start = others.start()?;
    let other_look = look_along(&two, start)?;
    let case = Case {
        owner: own.subject(names.0),
        other: Some((two, other_look)),
        walk,
    };
    paged(alloc, &case)
}

/// The page about a program that gets stuck; an empty one where it can't be made.
fn page_stuck(alloc: Global, program: Given, lines: &[u8]) -> Result<Vec<u8>, Memory>
    requires { IsShort most_bytes program.text.now }
{
    let Some(own) = read(alloc, program.text, lines)? else {
        return Ok(Vec::new(alloc));
    };
    let Witness::Schedule(schedule) = own.witness(alloc)? else {
        return Ok(Vec::new(alloc));
    };
    page_of_one(alloc, program.name, &own, &schedule)
}

/// The page about a program that gets stuck, by a schedule; an empty one where it doesn't show the behaviour.
fn page_of_one<'p>(
    alloc: Global,
    name: &'p str,
    own: &'p Reading,
    schedule: &[u8],
) -> Result<Vec<u8>, Memory>
    requires { IsOne own.now.places.marked.accepted.program.params own.now.accepted.program own.now.behaviour }
{
    let Some(walk) = own.follow(alloc, schedule)? else {
        return Ok(Vec::new(alloc));
    };
    let case = Case {
        owner: own.subject(name),
        other: None,
        walk,
    };
    paged(alloc, &case)
}

/// The page about a case; an empty one where there is none.
fn paged(alloc: Global, case: &Case) -> Result<Vec<u8>, Memory> {
    let page = page(case)?;
    match page {
        Some(page) => Ok(page),
        None => Ok(Vec::new(alloc)),
    }
}
