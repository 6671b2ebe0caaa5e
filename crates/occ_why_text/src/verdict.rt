use crate::look::Look;
use crate::phrases::{push_event, push_events, push_paragraph, push_state, push_when};
use crate::subject::Subject;
use crate::waiting::{Wait, has_ended, push_circle, ring_of, waits_of};
use occ_place::{Places, Stand, part_name};
use occ_run::Last;
use occ_syntax::Memory;

/// What is said where there are no events yet, at the head of a sentence and inside one.
const BEFORE: (&[u8], &[u8]) = (b"Before any event", b"before any event");

/// The same of what a program does with no event.
const WITHOUT: (&[u8], &[u8]) = (b"Without an event", b"without an event");

/// Adds the sentence about two programs that differ: what the owner of the behaviour alone can do.
pub(crate) fn push_difference(
    text: &mut Vec<u8>,
    owner: &Subject,
    look: &Look,
) -> Result<(), Memory> {
    let alloc = owner.places.alloc();
    let mut words = Vec::from_slice(alloc, b"DIFFER  ")?;
    let trace = owner.behaviour.trace.items();
    let done = done_by_both(owner, look);
    match trace.get(done) {
        Some(event) => {
            push_when(&mut words, owner, &trace[..done], BEFORE)?;
            push_only(&mut words, owner, b" can do ")?;
            push_event(&mut words, owner.places, *event)?;
        }
        None => push_last(&mut words, owner)?,
    }
    words.push(b'.')?;
    push_paragraph(alloc, text, &words, 0)
}

/// How many events of the behaviour both programs can do. Where the other one wasn't looked through, and nothing is refused, it is the last
/// event that it can't do.
fn done_by_both(owner: &Subject, look: &Look) -> usize {
    let count = owner.behaviour.trace.items().len();
    if !look.is_cut {
        return look.longest;
    }
    match &owner.behaviour.last {
        Last::Refuses(events) if events.items().is_empty() && look.longest < count => {
            count.saturating_sub(1)
        }
        _ => count,
    }
}

/// Adds that a program alone can do something.
fn push_only(text: &mut Vec<u8>, owner: &Subject, can: &[u8]) -> Result<(), Memory> {
    text.extend_from_slice(b"only ")?;
    text.extend_from_slice(owner.file)?;
    text.extend_from_slice(can)?;
    Ok(())
}

/// Adds how only one program can stand behind all events.
fn push_last(text: &mut Vec<u8>, owner: &Subject) -> Result<(), Memory> {
    let trace = owner.behaviour.trace.items();
    match &owner.behaviour.last {
        Last::Ends(state) => {
            push_when(text, owner, trace, WITHOUT)?;
            push_only(text, owner, b" can end")?;
            if !state.items().is_empty() {
                text.extend_from_slice(b" with ")?;
                push_state(text, owner.places, state.items())?;
            }
        }
        Last::Refuses(events) => {
            push_when(text, owner, trace, BEFORE)?;
            if events.items().is_empty() {
                push_only(text, owner, b" can stand without having ended")?;
            } else {
                push_only(text, owner, b" can refuse ")?;
                push_events(text, owner.places, events.items())?;
            }
        }
    }
    Ok(())
}

/// Adds the sentence about a program that gets stuck.
pub(crate) fn push_deadlock(
    text: &mut Vec<u8>,
    owner: &Subject,
    stands: &[Stand],
) -> Result<(), Memory> {
    let places = owner.places;
    let alloc = places.alloc();
    let mut words = Vec::from_slice(alloc, b"DEADLOCK  ")?;
    push_when(&mut words, owner, owner.behaviour.trace.items(), BEFORE)?;
    words.extend_from_slice(owner.file)?;
    words.extend_from_slice(b" can get stuck")?;
    push_cause(&mut words, places, stands)?;
    words.push(b'.')?;
    push_paragraph(alloc, text, &words, 0)
}

/// Adds why a program is stuck, in few words.
fn push_cause(text: &mut Vec<u8>, places: &Places, stands: &[Stand]) -> Result<(), Memory> {
    let waits = waits_of(places, stands)?;
    let ring = ring_of(places, stands, &waits)?;
    if !ring.is_empty() {
        text.extend_from_slice(b": ")?;
        return push_circle(text, places, stands, &ring);
    }
    for wait in &waits {
        if let Some((one, ended)) = whose_ended(stands, wait) {
            text.extend_from_slice(b": ")?;
            text.extend_from_slice(part_name(places, one))?;
            text.extend_from_slice(b" waits for ")?;
            text.extend_from_slice(part_name(places, ended))?;
            text.extend_from_slice(b", which has ended")?;
            return Ok(());
        }
    }
    Ok(())
}

/// The part that waits, and the one for which it waits, where that one has ended.
fn whose_ended(stands: &[Stand], wait: &Wait) -> Option<(usize, usize)> {
    let one = stands.get(wait.place)?;
    let ended = stands.get(wait.other?)?;
    if has_ended(ended) {
        Some((one.part, ended.part))
    } else {
        None
    }
}
