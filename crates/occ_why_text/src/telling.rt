use crate::look::Look;
use crate::phrases::push_event;
use crate::subject::Subject;
use occ_run::Last;
use occ_syntax::{Event, Events, Memory};
use std::alloc::Global;

/// How many sets are tried at most.
const MOST_TRIED: usize = 20_000;

/// The smallest set of events that one program can refuse behind the events of its behaviour and another can't, as far as both were
/// looked through: of the sets with fewest events the first, of what is refused beside the smallest set that is insisted on. None where
/// there are more configurations or sets than were looked through.
pub fn smallest_refusal(
    owner: (&Subject, &Look),
    other: (&Subject, &Look),
) -> Result<Option<Events>, Memory> {
    let Last::Refuses(_) = &owner.0.behaviour.last else {
        return Ok(None);
    };
    if owner.1.is_cut || other.1.is_cut {
        return Ok(None);
    }
    let alloc = owner.0.places.alloc();
    let own = in_order(alloc, owner.1.insisted(owner.0)?)?;
    let others = other.1.insisted(other.0)?;
    let mut best: Option<Vec<u32>> = None;
    for set in &own {
        let found = hitting(alloc, set, &others, least(&best))?;
        if let Some(found) = found {
            best = Some(found);
        }
    }
    let Some(best) = best else {
        return Ok(None);
    };
    let mut events = Events::new(alloc);
    for event in &owner.0.events_of(&best)? {
        events.push(*event)?;
    }
    Ok(Some(events))
}

/// Fewer events than those are looked for.
fn least(best: &Option<Vec<u32>>) -> usize {
    match best {
        Some(set) => set.len(),
        None => usize::MAX,
    }
}

/// Sets by how many they have, and then as lists.
fn in_order(alloc: Global, sets: Vec<Vec<u32>>) -> Result<Vec<Vec<u32>>, Memory> {
    let mut keyed = Vec::new(alloc);
    for set in sets {
        keyed.push((set.len(), set))?;
    }
    keyed.sort()?;
    let mut ordered = Vec::new(alloc);
    for (_, set) in keyed {
        ordered.push(set)?;
    }
    Ok(ordered)
}

/// The smallest set that has an event of each of the others and none of the own ones, if it has fewer than so many.
fn hitting(
    alloc: Global,
    own: &[u32],
    others: &[Vec<u32>],
    below: usize,
) -> Result<Option<Vec<u32>>, Memory> {
    let mut tried: Vec<Vec<u32>> = Vec::new(alloc);
    tried.push(Vec::new(alloc))?;
    let mut best: Option<Vec<u32>> = None;
    for place in 0..MOST_TRIED {
        let Some(set) = tried.get(place) else {
            return Ok(best);
        };
        if set.len() >= below || least(&best) < set.len() {
            return Ok(best);
        }
        match missed(others, set) {
            None => {
                let found = sorted(alloc, set)?;
                best = Some(first_of(best, found));
            }
            Some(missed) => {
                let more = extended(alloc, set, own, missed)?;
                for set in more {
                    tried.push(set)?;
                }
            }
        }
    }
    Ok(None)
}

fn first_of(best: Option<Vec<u32>>, found: Vec<u32>) -> Vec<u32> {
    match best {
        Some(best) => {
            if best.as_slice() <= found.as_slice() {
                best
            } else {
                found
            }
        }
        None => found,
    }
}

fn sorted(alloc: Global, set: &[u32]) -> Result<Vec<u32>, Memory> {
    let mut sorted = Vec::from_slice(alloc, set)?;
    sorted.sort()?;
    Ok(sorted)
}

/// The first of the sets of which none is in a set.
fn missed<'s>(others: &'s [Vec<u32>], set: &[u32]) -> Option<&'s [u32]> {
    for other in others {
        if !meets(other, set) {
            return Some(other.as_slice());
        }
    }
    None
}

fn meets(one: &[u32], other: &[u32]) -> bool {
    for number in one {
        if other.contains(number) {
            return true;
        }
    }
    false
}

/// A set with one event more, in each way.
fn extended(
    alloc: Global,
    set: &[u32],
    own: &[u32],
    missed: &[u32],
) -> Result<Vec<Vec<u32>>, Memory> {
    let mut more = Vec::new(alloc);
    for number in missed {
        if !own.contains(number) {
            let mut next = Vec::from_slice(alloc, set)?;
            next.push(*number)?;
            more.push(next)?;
        }
    }
    Ok(more)
}

/// The lines of a behaviour with another last line, which refuses those events.
pub fn refusing(subject: &Subject, lines: &[u8], events: &[Event]) -> Result<Vec<u8>, Memory> {
    let mut text = Vec::from_slice(subject.places.alloc(), first_lines(lines))?;
    text.extend_from_slice(b"REFUSES {")?;
    for (order, event) in events.iter().enumerate() {
        if order > 0 {
            text.push(b' ')?;
        }
        push_event(&mut text, subject.places, *event)?;
    }
    text.push(b'}')?;
    Ok(text)
}

/// All lines but the last.
fn first_lines(lines: &[u8]) -> &[u8] {
    let mut rest = lines;
    while let [front @ .., last] = rest {
        if *last == b'\n' {
            return rest;
        }
        rest = front;
    }
    rest
}
