use occ_place::Places;
use occ_run::{Machine, Move, Stand};
use occ_syntax::{Dir, Event, Memory, Name, push_number};

/// The most events of a trace that are told.
const MOST: usize = 40;

/// Adds the line of where a machine is: how many steps it took, the state that it began in, its trace, and how it stands.
pub(crate) fn push_heading(
    text: &mut Vec<u8>,
    places: &Places,
    begun: (&[(Name, u8)], usize),
    machine: &Machine,
    moves: &[Move],
) -> Result<(), Memory> {
    if begun.1 == 0 {
        text.extend_from_slice(b"At the start")?;
    } else {
        text.extend_from_slice(b"After ")?;
        push_count(text, begun.1, b"step")?;
    }
    if !begun.0.is_empty() {
        text.extend_from_slice(b", from ")?;
        push_state(text, places, begun.0)?;
    }
    push_trace(text, places, machine.trace())?;
    text.extend_from_slice(b". ")?;
    push_stand(text, places, machine, moves)?;
    text.push(b'\n')?;
    Ok(())
}

fn push_count(text: &mut Vec<u8>, count: usize, word: &[u8]) -> Result<(), Memory> {
    push_number(text, count as u64)?;
    text.push(b' ')?;
    text.extend_from_slice(word)?;
    if count != 1 {
        text.push(b's')?;
    }
    Ok(())
}

fn push_state(text: &mut Vec<u8>, places: &Places, state: &[(Name, u8)]) -> Result<(), Memory> {
    for (order, (name, value)) in state.iter().enumerate() {
        if order > 0 {
            text.extend_from_slice(b", ")?;
        }
        text.extend_from_slice(places.text(*name))?;
        text.extend_from_slice(b" = ")?;
        push_number(text, u64::from(*value))?;
    }
    Ok(())
}

fn push_trace(text: &mut Vec<u8>, places: &Places, trace: &[Event]) -> Result<(), Memory> {
    if trace.is_empty() {
        return Ok(());
    }
    text.extend_from_slice(b", trace")?;
    let shown = if trace.len() > MOST {
        MOST
    } else {
        trace.len()
    };
    for event in &trace[..shown] {
        text.push(b' ')?;
        text.extend_from_slice(places.text(event.chan))?;
        text.push(match event.dir {
            Dir::Input => b'?',
            Dir::Output => b'!',
        })?;
        push_number(text, u64::from(event.value))?;
    }
    if trace.len() > MOST {
        text.extend_from_slice(b" ... (")?;
        push_number(text, trace.len() as u64)?;
        text.extend_from_slice(b" events)")?;
    }
    Ok(())
}

fn push_stand(
    text: &mut Vec<u8>,
    places: &Places,
    machine: &Machine,
    moves: &[Move],
) -> Result<(), Memory> {
    match machine.stand()? {
        Stand::Ended(state) => {
            text.extend_from_slice(b"ENDED")?;
            if !state.items().is_empty() {
                text.extend_from_slice(b" with ")?;
                push_state(text, places, state.items())?;
            }
        }
        Stand::Stuck(_) => text.extend_from_slice(b"STUCK: no step is left")?,
        Stand::Stable { .. } => {
            text.extend_from_slice(b"STABLE: ")?;
            push_count(text, moves.len(), b"step")?;
            let each: &[u8] = if moves.len() == 1 {
                b", an event"
            } else {
                b", each an event"
            };
            text.extend_from_slice(each)?;
            text.extend_from_slice(b"; the outside must act")?;
        }
        Stand::Moving { .. } => {
            text.extend_from_slice(b"MOVING: ")?;
            push_count(text, moves.len(), b"step")?;
            push_unseen(text, moves)?;
        }
    }
    text.push(b'.')?;
    Ok(())
}

/// Adds how many of the steps are unseen.
fn push_unseen(text: &mut Vec<u8>, moves: &[Move]) -> Result<(), Memory> {
    let mut unseen: usize = 0;
    for step in moves {
        if let Move::Unseen = step {
            unseen = unseen.saturating_add(1);
        }
    }
    if moves.len() == 1 {
        text.extend_from_slice(b", unseen")?;
    } else if unseen == moves.len() {
        text.extend_from_slice(b", all unseen")?;
    } else {
        text.extend_from_slice(b", ")?;
        push_number(text, unseen as u64)?;
        text.extend_from_slice(b" unseen")?;
    }
    Ok(())
}
