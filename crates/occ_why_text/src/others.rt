use crate::cases::{push_ended, push_offers, state_at};
use crate::look::{Entry, Look, told_to};
use crate::phrases::{push_paragraph, push_state, push_trace};
use crate::route::push_route;
use crate::shape::shape;
use crate::subject::Subject;
use occ_place::{Stand, Way, push_stands, stands};
use occ_run::is_over;
use occ_syntax::{Event, Memory, Name, push_number};

/// How many ways to stand, and how many states at an end, are told at most.
const MOST_WAYS: usize = 3;

/// A way in which the parts of a program can stand, by the place of its first configuration.
#[derive(Drop)]
struct Stood {
    place: usize,
    stands: Vec<Stand>,
}

/// Adds what another program does along the events of a behaviour, as far as it can.
pub(crate) fn push_other<'p>(
    text: &mut Vec<u8>,
    other: &Subject<'p>,
    look: &Look<'p>,
) -> Result<(), Memory> {
    let stood = ways(other, look)?;
    let ended = ends(other, look)?;
    text.push(b'\n')?;
    if stood.is_empty() && ended.is_empty() {
        text.extend_from_slice(other.file)?;
        text.extend_from_slice(b" has too many configurations there to be looked through.\n")?;
        return Ok(());
    }
    push_intro(text, other, look, stood.len())?;
    if stood.is_empty() && !ended.is_empty() {
        push_end(text, other, look)?;
        push_more_ends(text, other, look, &ended, 1)?;
    }
    for (order, way) in stood.iter().enumerate() {
        if order < MOST_WAYS {
            text.push(b'\n')?;
            push_stands(other.places, text, &way.stands)?;
            text.push(b'\n')?;
            if let Some(entry) = look.entries.get(way.place) {
                push_offers(text, other, &entry.point, false)?;
            }
        }
    }
    if stood.len() > MOST_WAYS {
        text.extend_from_slice(b"\n  ... and ")?;
        push_number(text, stood.len().saturating_sub(MOST_WAYS) as u64)?;
        text.extend_from_slice(b" more\n")?;
    }
    if !stood.is_empty() {
        push_more_ends(text, other, look, &ended, 0)?;
    }
    if look.is_cut {
        text.extend_from_slice(b"  There is more: not all configurations were looked through.\n")?;
    }
    Ok(())
}

/// Adds the sentence in front of what another program does.
fn push_intro(text: &mut Vec<u8>, other: &Subject, look: &Look, ways: usize) -> Result<(), Memory> {
    let alloc = other.places.alloc();
    let trace = other.behaviour.trace.items();
    let mut words = Vec::from_slice(alloc, other.file)?;
    let only = if look.is_cut {
        b"".as_slice()
    } else {
        b"only "
    };
    if look.longest < trace.len() {
        push_beginning(&mut words, other, &trace[..look.longest])?;
    } else {
        words.extend_from_slice(if trace.is_empty() {
            b", from the same state, can ".as_slice()
        } else {
            b", after the same events, can "
        })?;
    }
    words.extend_from_slice(only)?;
    match ways {
        0 => words.extend_from_slice(b"do this:")?,
        1 => words.extend_from_slice(b"stand so:")?,
        count => {
            words.extend_from_slice(b"stand in one of ")?;
            push_number(&mut words, count as u64)?;
            words.extend_from_slice(b" ways:")?;
        }
    }
    push_paragraph(alloc, text, &words, 0)
}

/// Adds which of the events a program can do.
fn push_beginning(words: &mut Vec<u8>, other: &Subject, front: &[Event]) -> Result<(), Memory> {
    if front.is_empty() {
        words.extend_from_slice(b" can do none of these events, and can ")?;
    } else {
        words.extend_from_slice(b" can do no more of these events than")?;
        push_trace(words, other.places, front)?;
        words.extend_from_slice(b", and then can ")?;
    }
    Ok(())
}

/// Whether a configuration is behind as many events as can be done, with no unseen step left.
fn is_last(look: &Look, entry: &Entry) -> bool {
    entry.rests && entry.events == look.longest
}

/// The ways in which the parts of a program can stand behind as many events as it can do.
fn ways<'p>(other: &Subject<'p>, look: &Look<'p>) -> Result<Vec<Stood>, Memory> {
    let mut found: Vec<Stood> = Vec::new(other.places.alloc());
    let mut shapes: Vec<u64> = Vec::new(other.places.alloc());
    for (place, entry) in look.entries.iter().enumerate() {
        let control = entry.point.control();
        if is_last(look, entry) && !is_over(control) {
            let shape = shape(control);
            if !shapes.contains(&shape) {
                shapes.push(shape)?;
                let stands = stands(other.places, &entry.point)?;
                if !is_among(&found, &stands) {
                    found.push(Stood { place, stands })?;
                }
            }
        }
    }
    Ok(found)
}

fn is_among(found: &[Stood], stands: &[Stand]) -> bool {
    for way in found {
        if are_alike(&way.stands, stands) {
            return true;
        }
    }
    false
}

/// Whether parts stand alike, but for their values.
fn are_alike(one: &[Stand], other: &[Stand]) -> bool {
    if one.len() != other.len() {
        return false;
    }
    for (stand, next) in one.iter().zip(other.iter()) {
        if stand.part != next.part || !same_ways(&stand.ways, &next.ways) {
            return false;
        }
    }
    true
}

fn same_ways(one: &[(Way, u32)], other: &[(Way, u32)]) -> bool {
    if one.len() != other.len() {
        return false;
    }
    for (way, next) in one.iter().zip(other.iter()) {
        if way.1 != next.1 || plain(way.0) != plain(next.0) {
            return false;
        }
    }
    true
}

/// A way without its value.
fn plain(way: Way) -> Way {
    match way {
        Way::Output(chan, _) => Way::Output(chan, 0),
        _ => way,
    }
}

/// The states in which a program can have ended behind as many events as it can do, each once.
fn ends<'p>(other: &Subject<'p>, look: &Look<'p>) -> Result<Vec<Vec<(Name, u8)>>, Memory> {
    let mut found: Vec<Vec<(Name, u8)>> = Vec::new(other.places.alloc());
    for entry in &look.entries {
        if is_last(look, entry) && is_over(entry.point.control()) {
            let state = state_at(other, &entry.point)?;
            let mut is_new = true;
            for before in &found {
                if before.as_slice() == state.as_slice() {
                    is_new = false;
                }
            }
            if is_new {
                found.push(state)?;
            }
        }
    }
    Ok(found)
}

/// Adds the shortest schedule with which a program ends.
fn push_end<'p>(text: &mut Vec<u8>, other: &Subject<'p>, look: &Look<'p>) -> Result<(), Memory> {
    for (place, entry) in look.entries.iter().enumerate() {
        if is_last(look, entry) && is_over(entry.point.control()) {
            let told = told_to(other.places, look, place)?;
            if !told.is_empty() {
                text.push(b'\n')?;
                push_route(text, other.places, &told)?;
            }
            return push_ended(text, other, &entry.point);
        }
    }
    Ok(())
}

/// Adds the further states in which a program can have ended, behind the first so many.
fn push_more_ends(
    text: &mut Vec<u8>,
    other: &Subject,
    look: &Look,
    ended: &[Vec<(Name, u8)>],
    from: usize,
) -> Result<(), Memory> {
    let alloc = other.places.alloc();
    for (order, state) in ended.iter().enumerate() {
        if order >= from && order < MOST_WAYS {
            let mut words = Vec::from_slice(alloc, b"It can also have ended")?;
            if !state.is_empty() {
                words.extend_from_slice(b", with ")?;
                push_state(&mut words, other.places, state)?;
            }
            words.push(b'.')?;
            push_paragraph(alloc, text, &words, 2)?;
        }
    }
    if ended.len() > MOST_WAYS {
        text.extend_from_slice(b"  ... and ")?;
        push_number(text, ended.len().saturating_sub(MOST_WAYS) as u64)?;
        text.extend_from_slice(b" more\n")?;
    }
    Ok(())
}
