use crate::look::Look;
use crate::others::push_other;
use crate::parts::push_parts;
use crate::phrases::{push_paragraph, push_set, push_state};
use crate::route::{Walk, push_route, told_along};
use crate::subject::Subject;
use crate::verdict::{push_deadlock, push_difference};
use crate::waiting::push_waits;
use occ_member::{has_ended, refuses};
use occ_place::{Stand, Told, push_stands, stands};
use occ_run::{Last, Point, held, is_over};
use occ_syntax::{Kind, Memory, Name, push_number};

/// What is told of: the program that has a behaviour, the walk that leads it there, and the other one, looked through along the events of the
/// behaviour; or none, where the program gets stuck.
#[derive(Drop)]
pub struct Case<'p> {
    pub owner: Subject<'p>,
    pub other: Option<(Subject<'p>, Look<'p>)>,
    pub walk: Walk<'p>,
}

/// The text about a case. None where the walk doesn't lead to the behaviour.
pub fn page<'p>(case: &Case<'p>) -> Result<Option<Vec<u8>>, Memory> {
    let owner = &case.owner;
    let places = owner.places;
    let Some(end) = case.walk.points.last() else {
        return Ok(None);
    };
    if !shows(owner, end)? {
        return Ok(None);
    }
    let told = told_along(places, &case.walk)?;
    let stood = stands(places, end)?;
    let mut text = Vec::new(places.alloc());
    push_verdict(&mut text, case, &stood)?;
    push_parts(&mut text, owner)?;
    push_how(&mut text, owner, &told)?;
    push_stood(&mut text, owner, &stood, end)?;
    if let Some((other, look)) = &case.other {
        push_other(&mut text, other, look)?;
        push_smallest(&mut text, owner, other)?;
    }
    Ok(Some(text))
}

/// Adds the first sentence.
fn push_verdict(text: &mut Vec<u8>, case: &Case, stood: &[Stand]) -> Result<(), Memory> {
    let owner = &case.owner;
    match &case.other {
        Some((_, look)) => push_difference(text, owner, look),
        None => push_deadlock(text, owner, stood),
    }
}

/// Adds how the program that has the behaviour stands at its end.
fn push_stood(
    text: &mut Vec<u8>,
    owner: &Subject,
    stood: &[Stand],
    end: &Point,
) -> Result<(), Memory> {
    if is_over(end.control()) {
        return push_ended(text, owner, end);
    }
    text.extend_from_slice(if owner.has_parts() {
        b"\nThen its parts stand so:\n\n".as_slice()
    } else {
        b"\nThen it stands so:\n\n"
    })?;
    push_stands(owner.places, text, stood)?;
    text.push(b'\n')?;
    push_waits(text, owner.places, stood)?;
    push_offers(text, owner, end, true)
}

/// Whether a program stands as the last line of its behaviour says.
fn shows(owner: &Subject, end: &Point) -> Result<bool, Memory> {
    match &owner.behaviour.last {
        Last::Refuses(events) => refuses(end, events.items()),
        Last::Ends(state) => Ok(has_ended(end, state.items())),
    }
}

/// Adds how a program comes to its behaviour.
fn push_how(text: &mut Vec<u8>, owner: &Subject, told: &[Told]) -> Result<(), Memory> {
    text.extend_from_slice(b"\n")?;
    if told.is_empty() {
        text.extend_from_slice(owner.file)?;
        text.extend_from_slice(b" comes to it without a step.\n")?;
        return Ok(());
    }
    text.extend_from_slice(b"How ")?;
    text.extend_from_slice(owner.file)?;
    text.extend_from_slice(b" comes to it (")?;
    push_number(text, told.len() as u64)?;
    text.extend_from_slice(if told.len() == 1 { b" step" } else { b" steps" })?;
    text.extend_from_slice(b"):\n\n")?;
    push_route(text, owner.places, told)
}

/// The values of a program's parameters at a point.
pub(crate) fn state_at(subject: &Subject, point: &Point) -> Result<Vec<(Name, u8)>, Memory> {
    let mut state = Vec::new(subject.places.alloc());
    for (name, kind) in subject.params {
        if let Kind::Var(_) = kind {
            state.push((*name, held(point.place().state(), *name)))?;
        }
    }
    Ok(state)
}

/// Adds that a program has ended, with which values.
pub(crate) fn push_ended(
    text: &mut Vec<u8>,
    subject: &Subject,
    point: &Point,
) -> Result<(), Memory> {
    let alloc = subject.places.alloc();
    let mut words = Vec::from_slice(alloc, b"Then it has ended")?;
    let state = state_at(subject, point)?;
    if !state.is_empty() {
        words.extend_from_slice(b", with ")?;
        push_state(&mut words, subject.places, &state)?;
    }
    words.push(b'.')?;
    text.push(b'\n')?;
    push_paragraph(alloc, text, &words, 0)
}

/// Adds which events a program offers at a point; of the program whose behaviour is told, that it refuses the rest.
pub(crate) fn push_offers(
    text: &mut Vec<u8>,
    subject: &Subject,
    point: &Point,
    is_owner: bool,
) -> Result<(), Memory> {
    let alloc = subject.places.alloc();
    let numbers = subject.offered(point)?;
    if numbers.is_empty() {
        text.extend_from_slice(b"  It offers nothing: it is stuck.\n")?;
        return Ok(());
    }
    let mut words = Vec::from_slice(alloc, b"It offers ")?;
    push_set(&mut words, subject.places, &subject.events_of(&numbers)?)?;
    if is_owner && numbers.len() < subject.interface() {
        words.extend_from_slice(b", and refuses the rest")?;
    }
    words.push(b'.')?;
    push_paragraph(alloc, text, &words, 2)
}

/// Adds the smallest telling refusal.
fn push_smallest(text: &mut Vec<u8>, owner: &Subject, other: &Subject) -> Result<(), Memory> {
    let Last::Refuses(events) = &owner.behaviour.last else {
        return Ok(());
    };
    if events.items().is_empty() {
        return Ok(());
    }
    let alloc = owner.places.alloc();
    let mut words = Vec::from_slice(alloc, b"Smallest telling refusal: ")?;
    push_set(&mut words, owner.places, events.items())?;
    words.extend_from_slice(b". ")?;
    words.extend_from_slice(owner.file)?;
    words.extend_from_slice(b" can refuse it there, ")?;
    words.extend_from_slice(other.file)?;
    words.extend_from_slice(b" can't.")?;
    text.push(b'\n')?;
    push_paragraph(alloc, text, &words, 0)
}
