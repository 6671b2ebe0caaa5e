use crate::subject::{Subject, mark};
use occ_place::Places;
use occ_syntax::{Event, Memory, Name, push_number};
use std::alloc::Global;

/// How many columns a line has.
pub(crate) const WIDTH: usize = 98;

/// Of a trace with more events than these, only the first are told in a sentence.
const MOST_TOLD: usize = 40;

pub(crate) fn push_spaces(text: &mut Vec<u8>, count: usize) -> Result<(), Memory> {
    for _ in 0..count {
        text.push(b' ')?;
    }
    Ok(())
}

/// A paragraph under way: the column of the line, and whether a word stands on it.
#[derive(Clone, Copy)]
struct Line {
    indent: usize,
    column: usize,
    begun: bool,
}

/// Adds a paragraph whose lines begin with so many spaces.
pub(crate) fn push_paragraph(
    alloc: Global,
    text: &mut Vec<u8>,
    words: &[u8],
    indent: usize,
) -> Result<(), Memory> {
    let mut line = Line {
        indent,
        column: indent,
        begun: false,
    };
    push_spaces(text, indent)?;
    let mut word = Vec::new(alloc);
    for byte in words {
        if *byte == b' ' {
            line = push_word(text, &word, line)?;
            word.clear();
        } else {
            word.push(*byte)?;
        }
    }
    let _end = push_word(text, &word, line)?;
    text.push(b'\n')?;
    Ok(())
}

fn push_word(text: &mut Vec<u8>, word: &[u8], line: Line) -> Result<Line, Memory> {
    let mut column = line.column;
    if line.begun {
        if column.saturating_add(word.len()) >= WIDTH {
            text.push(b'\n')?;
            push_spaces(text, line.indent)?;
            column = line.indent;
        } else {
            text.push(b' ')?;
            column = column.saturating_add(1);
        }
    }
    text.extend_from_slice(word)?;
    Ok(Line {
        indent: line.indent,
        column: column.saturating_add(word.len()),
        begun: true,
    })
}

/// Adds an event.
pub(crate) fn push_event(text: &mut Vec<u8>, places: &Places, event: Event) -> Result<(), Memory> {
    text.extend_from_slice(places.text(event.chan))?;
    text.push(mark(event.dir))?;
    push_number(text, u64::from(event.value))?;
    Ok(())
}

/// Adds events from one to another of the same channel.
fn push_run(text: &mut Vec<u8>, places: &Places, run: (Event, u8)) -> Result<(), Memory> {
    push_event(text, places, run.0)?;
    if run.1 > run.0.value {
        text.extend_from_slice(b"..")?;
        push_number(text, u64::from(run.1))?;
    }
    Ok(())
}

/// Adds a set of events in braces, with ranges.
pub(crate) fn push_set(
    text: &mut Vec<u8>,
    places: &Places,
    events: &[Event],
) -> Result<(), Memory> {
    text.push(b'{')?;
    let mut open: Option<(Event, u8)> = None;
    for event in events {
        match open {
            None => open = Some((*event, event.value)),
            Some((first, last)) => {
                let goes_on = first.chan == event.chan
                    && first.dir == event.dir
                    && last.checked_add(1) == Some(event.value);
                if goes_on {
                    open = Some((first, event.value));
                } else {
                    push_run(text, places, (first, last))?;
                    text.push(b' ')?;
                    open = Some((*event, event.value));
                }
            }
        }
    }
    if let Some(run) = open {
        push_run(text, places, run)?;
    }
    text.push(b'}')?;
    Ok(())
}

/// Adds one event alone, and more as a set.
pub(crate) fn push_events(
    text: &mut Vec<u8>,
    places: &Places,
    events: &[Event],
) -> Result<(), Memory> {
    match events {
        [event] => push_event(text, places, *event),
        _ => push_set(text, places, events),
    }
}

/// Adds `x = 0, y = 1`.
pub(crate) fn push_state(
    text: &mut Vec<u8>,
    places: &Places,
    state: &[(Name, u8)],
) -> Result<(), Memory> {
    for (order, (name, value)) in state.iter().enumerate() {
        if order > 0 {
            text.extend_from_slice(b", ")?;
        }
        text.extend_from_slice(places.text(*name))?;
        text.extend_from_slice(b" = ")?;
        push_number(text, u64::from(*value))?;
    }
    Ok(())
}

/// Adds where a behaviour's last line begins: `After in?0 out!0, `, `From x = 0, before any event, `.
pub(crate) fn push_when(
    text: &mut Vec<u8>,
    subject: &Subject,
    trace: &[Event],
    none: (&[u8], &[u8]),
) -> Result<(), Memory> {
    let state = subject.behaviour.state.items();
    let begins = state.is_empty();
    if !begins {
        text.extend_from_slice(b"From ")?;
        push_state(text, subject.places, state)?;
        text.extend_from_slice(b", ")?;
    }
    if trace.is_empty() {
        text.extend_from_slice(if begins { none.0 } else { none.1 })?;
    } else {
        text.extend_from_slice(if begins { b"After" } else { b"after" })?;
        push_trace(text, subject.places, trace)?;
    }
    text.extend_from_slice(b", ")?;
    Ok(())
}

/// Adds the events of a trace, of a long one the first, each behind a space.
pub(crate) fn push_trace(
    text: &mut Vec<u8>,
    places: &Places,
    trace: &[Event],
) -> Result<(), Memory> {
    for (order, event) in trace.iter().enumerate() {
        if order >= MOST_TOLD {
            text.extend_from_slice(b" ... (")?;
            push_number(text, trace.len() as u64)?;
            text.extend_from_slice(b" events)")?;
            return Ok(());
        }
        text.push(b' ')?;
        push_event(text, places, *event)?;
    }
    Ok(())
}
