use crate::doing::{Act, Deed, Told};
use crate::places::Places;
use crate::standing::{Stand, Way};
use crate::walking::NOWHERE;
use occ_syntax::{Memory, Name, push_number};

/// The name of a part; `program` where there is only the body.
pub fn part_name(places: &Places, part: usize) -> &[u8] {
    if places.layout.parts.len() <= 1 {
        return b"program";
    }
    match places.layout.parts.get(part) {
        Some(part) => part.name.as_slice(),
        None => b"program",
    }
}

fn name_of(places: &Places, act: Act) -> &[u8] {
    part_name(places, places.layout.site_at(act.site).part)
}

fn line_of(places: &Places, act: Act) -> u32 {
    match places.layout.branches.get(act.branch) {
        Some(branch) => branch.line,
        None => places.layout.site_at(act.site).line,
    }
}

/// Adds a value, or the values from one to another.
fn push_range(text: &mut Vec<u8>, first: u8, last: u8) -> Result<(), Memory> {
    push_number(text, u64::from(first))?;
    if last > first {
        text.extend_from_slice(b"..")?;
        push_number(text, u64::from(last))?;
    }
    Ok(())
}

/// What is seen of a step, or what an unseen one does: `in?0`, `(c 0)`, `begin`. Of steps that go on with the next values `last` is the
/// last value.
pub fn event_cell(places: &Places, told: &Told, last: u8) -> Result<Vec<u8>, Memory> {
    let alloc = places.alloc();
    match told.first.deed {
        Deed::Begin(_) => Ok(Vec::from_slice(alloc, b"begin")?),
        Deed::Assign => Ok(Vec::from_slice(alloc, b"assign")?),
        Deed::Choose => Ok(Vec::from_slice(alloc, b"choose")?),
        Deed::Input(chan, _) => seen_cell(places, chan, b"?", (told.value, last)),
        Deed::Output(chan) => match told.second {
            None => seen_cell(places, chan, b"!", (told.value, told.value)),
            Some(_) => {
                let mut text = Vec::from_slice(alloc, b"(")?;
                text.extend_from_slice(places.text(chan))?;
                text.push(b' ')?;
                push_number(&mut text, u64::from(told.value))?;
                text.push(b')')?;
                Ok(text)
            }
        },
    }
}

fn seen_cell(
    places: &Places,
    chan: Name,
    sign: &[u8],
    values: (u8, u8),
) -> Result<Vec<u8>, Memory> {
    let mut text = Vec::from_slice(places.alloc(), places.text(chan))?;
    text.extend_from_slice(sign)?;
    push_range(&mut text, values.0, values.1)?;
    Ok(text)
}

/// Who does a step: `P1`, `outside -> P1`, `P1 -> P2`, `P2 -> outside`.
pub fn who_cell(places: &Places, told: &Told) -> Result<Vec<u8>, Memory> {
    let mut text = Vec::new(places.alloc());
    if let Deed::Input(_, _) = told.first.deed {
        text.extend_from_slice(b"outside -> ")?;
    }
    text.extend_from_slice(name_of(places, told.first))?;
    if let Deed::Output(_) = told.first.deed {
        text.extend_from_slice(b" -> ")?;
        match told.second {
            Some(second) => text.extend_from_slice(name_of(places, second))?,
            None => text.extend_from_slice(b"outside")?,
        }
    }
    Ok(text)
}

/// The line of a step, or of two the output's and the input's: `8 -> 12`.
pub fn line_cell(places: &Places, told: &Told) -> Result<Vec<u8>, Memory> {
    let mut text = Vec::new(places.alloc());
    push_number(&mut text, u64::from(line_of(places, told.first)))?;
    if let Some(second) = told.second {
        text.extend_from_slice(b" -> ")?;
        push_number(&mut text, u64::from(line_of(places, second)))?;
    }
    Ok(text)
}

/// The statement of a step as it is written, or of two the output's and the input's.
pub fn statement_cell(places: &Places, told: &Told) -> Result<Vec<u8>, Memory> {
    let source = &places.source;
    let mut text = Vec::new(places.alloc());
    text.extend_from_slice(source.statement(line_of(places, told.first)))?;
    if let Some(second) = told.second {
        text.extend_from_slice(b" / ")?;
        text.extend_from_slice(source.statement(line_of(places, second)))?;
    }
    Ok(text)
}

/// What a step changes: `x = 1, y = 0`, `branch 1 of 2`, `P1.v = 0..3 (line 6)`.
pub fn values_cell(places: &Places, told: &Told, last: u8) -> Result<Vec<u8>, Memory> {
    let mut text = Vec::new(places.alloc());
    match told.first.deed {
        Deed::Begin(name) => {
            if places.layout.parts.len() > 1 {
                text.extend_from_slice(name_of(places, told.first))?;
                text.push(b'.')?;
            }
            text.extend_from_slice(places.text(name))?;
            text.extend_from_slice(b" = ")?;
            push_range(&mut text, told.value, last)?;
            text.extend_from_slice(b" (line ")?;
            push_number(&mut text, u64::from(line_of(places, told.first)))?;
            text.push(b')')?;
        }
        Deed::Choose => {
            let (order, count) = places.layout.order_of(told.first.branch);
            text.extend_from_slice(b"branch ")?;
            push_number(&mut text, order as u64)?;
            text.extend_from_slice(b" of ")?;
            push_number(&mut text, count as u64)?;
        }
        Deed::Assign | Deed::Input(_, _) | Deed::Output(_) => {
            for (order, (name, value)) in told.changes.iter().enumerate() {
                if order > 0 {
                    text.extend_from_slice(b", ")?;
                }
                text.extend_from_slice(places.text(*name))?;
                text.extend_from_slice(b" = ")?;
                push_range(&mut text, *value, last)?;
            }
        }
    }
    Ok(text)
}

/// Adds the values of a part: `i = 2, v = 0`.
pub fn push_values(
    places: &Places,
    text: &mut Vec<u8>,
    values: &[(Name, u16)],
) -> Result<(), Memory> {
    for (order, (name, value)) in values.iter().enumerate() {
        if order > 0 {
            text.extend_from_slice(b", ")?;
        }
        text.extend_from_slice(places.text(*name))?;
        text.extend_from_slice(b" = ")?;
        push_number(text, u64::from(*value))?;
    }
    Ok(())
}
