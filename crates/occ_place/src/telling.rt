ghost use Rattle.std.specs.Prelude.{◌≤◌, length};

use crate::cells::{part_name, push_values};
use crate::places::Places;
use crate::standing::{Stand, Way};
use crate::table::{Columns, Line, push_table};
use occ_syntax::{Memory, Name, push_number};
use std::alloc::Global;

/// Adds the table of how parts stand. Copies that follow one another and stand alike are told together, and guards of one line whose
/// channels follow one another in an array.
pub fn push_stands(places: &Places, text: &mut Vec<u8>, stands: &[Stand]) -> Result<(), Memory> {
    let alloc = places.alloc();
    let mut lines = Vec::new(alloc);
    lines.push(heads(alloc)?)?;
    let mut rest = stands;
    while let [first, later @ ..] = rest {
        let (count, behind) = alike(places, first, later);
        push_stand(places, &mut lines, first, count)?;
        rest = behind;
    }
    let columns = Columns { right: 2, cut: 9 };
    push_table(alloc, text, &lines, columns)
}

fn heads(alloc: Global) -> Result<Line, Memory> {
    let mut cells = Vec::new(alloc);
    cells.push(Vec::from_slice(alloc, b"part")?)?;
    cells.push(Vec::from_slice(alloc, b"stands so")?)?;
    cells.push(Vec::from_slice(alloc, b"line")?)?;
    cells.push(Vec::from_slice(alloc, b"values")?)?;
    Ok(Line { cells })
}

/// How many of the later stands are those of the next copies, and alike; and those behind them.
fn alike<'s>(places: &Places, first: &Stand, later: &'s [Stand]) -> (usize, &'s [Stand])
    ensures { length result.1.now ≤ length later.now }
{
    let mut count: usize = 0;
    let mut rest = later;
    while let [stand, behind @ ..] = rest {
        let follows = places.layout.follows(first.part, stand.part, count);
        if !follows || !stands_alike(first, stand) {
            return (count, rest);
        }
        count = count.saturating_add(1);
        rest = behind;
    }
    (count, rest)
}

fn stands_alike(one: &Stand, other: &Stand) -> bool {
    one.ways.as_slice() == other.ways.as_slice() && one.values.as_slice() == other.values.as_slice()
}

/// Adds the lines of a stand, of one part and so many copies behind it.
fn push_stand(
    places: &Places,
    lines: &mut Vec<Line>,
    stand: &Stand,
    count: usize,
) -> Result<(), Memory> {
    let alloc = places.alloc();
    let mut rest = stand.ways.as_slice();
    let mut is_first = true;
    while let [first, later @ ..] = rest {
        let (more, behind) = in_row(places, *first, later);
        let mut part = Vec::new(alloc);
        let mut line = Vec::new(alloc);
        let mut values = Vec::new(alloc);
        if is_first {
            push_part(places, &mut part, stand.part, count)?;
            push_values(places, &mut values, &stand.values)?;
        }
        if first.1 > 0 {
            push_number(&mut line, u64::from(first.1))?;
        }
        let way = way_cell(places, first.0, more, is_first)?;
        let mut cells = Vec::new(alloc);
        cells.push(part)?;
        cells.push(way)?;
        cells.push(line)?;
        cells.push(values)?;
        lines.push(Line { cells })?;
        is_first = false;
        rest = behind;
    }
    Ok(())
}

/// Adds the name of a part, and of so many copies behind it: `P1[0..2]`.
pub fn push_part(
    places: &Places,
    text: &mut Vec<u8>,
    part: usize,
    count: usize,
) -> Result<(), Memory> {
    let name = part_name(places, part);
    if let Some(entry) = places.layout.parts.get(part) {
        if let Some(copy) = entry.copy {
            if count > 0 && entry.stem <= name.len() {
                text.extend_from_slice(&name[..entry.stem])?;
                text.push(b'[')?;
                push_number(text, u64::from(copy))?;
                text.extend_from_slice(b"..")?;
                push_number(text, u64::from(copy).saturating_add(count as u64))?;
                text.push(b']')?;
                return Ok(());
            }
        }
    }
    text.extend_from_slice(name)?;
    Ok(())
}

/// The name of an array and the place of its element that a text is.
fn element(text: &[u8]) -> Option<(&[u8], u32)> {
    for (len, byte) in text.iter().enumerate() {
        if *byte == b'[' {
            return Some((&text[..len], number_in(&text[len..])));
        }
    }
    None
}

/// The number that the digits of a text are.
fn number_in(text: &[u8]) -> u32 {
    let mut number: u32 = 0;
    for byte in text {
        if byte.is_ascii_digit() {
            let digit = u32::from(byte.saturating_sub(b'0'));
            number = number.saturating_mul(10).saturating_add(digit);
        }
    }
    number
}

/// How many of the later ways are the same on the next elements of an array, on the same line; and those behind them.
fn in_row<'w>(
    places: &Places,
    first: (Way, u32),
    later: &'w [(Way, u32)],
) -> (usize, &'w [(Way, u32)])
    ensures { length result.1.now ≤ length later.now }
{
    let mut count: usize = 0;
    let mut rest = later;
    while let [way, behind @ ..] = rest {
        if !is_next(places, first, *way, count) {
            return (count, rest);
        }
        count = count.saturating_add(1);
        rest = behind;
    }
    (count, rest)
}

/// Whether a way is the same as another one, on the element of that order behind its own.
fn is_next(places: &Places, first: (Way, u32), way: (Way, u32), count: usize) -> bool {
    let Some(chan) = channel(first.0) else {
        return false;
    };
    let Some(next) = channel(way.0) else {
        return false;
    };
    let same = way.1 == first.1 && on(way.0, chan) == first.0;
    same && follows(places.text(chan), places.text(next), count)
}

fn follows(first: &[u8], next: &[u8], count: usize) -> bool {
    let Some((array, place)) = element(first) else {
        return false;
    };
    let Some((other, later)) = element(next) else {
        return false;
    };
    array == other
        && u64::from(later)
            == u64::from(place)
                .saturating_add(count as u64)
                .saturating_add(1)
}

/// The channel of a way.
pub fn channel(way: Way) -> Option<Name> {
    match way {
        Way::Input(chan) => Some(chan),
        Way::Output(chan, _) => Some(chan),
        _ => None,
    }
}

/// The same way on another channel.
fn on(way: Way, chan: Name) -> Way {
    match way {
        Way::Input(_) => Way::Input(chan),
        Way::Output(_, value) => Way::Output(chan, value),
        _ => way,
    }
}

/// What a part does next, in words; of a further guard `or input on c`. `more` is how many further elements it is the same on.
pub fn way_cell(places: &Places, way: Way, more: usize, is_first: bool) -> Result<Vec<u8>, Memory> {
    let mut text = Vec::new(places.alloc());
    match way {
        Way::Begin(name) => {
            text.extend_from_slice(b"is about to begin ")?;
            text.extend_from_slice(places.text(name))?;
        }
        Way::Input(chan) => {
            push_waits(&mut text, is_first)?;
            text.extend_from_slice(b"input on ")?;
            push_channel(places, &mut text, chan, more)?;
        }
        Way::Output(chan, value) => {
            push_waits(&mut text, is_first)?;
            text.extend_from_slice(b"output ")?;
            push_number(&mut text, u64::from(value))?;
            text.extend_from_slice(b" on ")?;
            push_channel(places, &mut text, chan, more)?;
        }
        Way::Assign => text.extend_from_slice(b"is about to assign")?,
        Way::Choose => text.extend_from_slice(b"is about to choose")?,
        Way::Stop => text.extend_from_slice(b"is at STOP")?,
        Way::NoChoice => text.extend_from_slice(b"is at an IF without a true choice")?,
        Way::NoGuard => text.extend_from_slice(b"is at an ALT without a true guard")?,
        Way::Ended => text.extend_from_slice(b"has ended")?,
    }
    Ok(text)
}

fn push_waits(text: &mut Vec<u8>, is_first: bool) -> Result<(), Memory> {
    if is_first {
        text.extend_from_slice(b"waits to ")?;
    } else {
        text.extend_from_slice(b"      or ")?;
    }
    Ok(())
}

fn push_channel(
    places: &Places,
    text: &mut Vec<u8>,
    chan: Name,
    more: usize,
) -> Result<(), Memory> {
    let name = places.text(chan);
    match element(name) {
        Some((array, place)) if more > 0 => {
            text.extend_from_slice(array)?;
            text.push(b'[')?;
            push_number(text, u64::from(place))?;
            text.extend_from_slice(b"..")?;
            push_number(text, u64::from(place).saturating_add(more as u64))?;
            text.push(b']')?;
        }
        _ => text.extend_from_slice(name)?,
    }
    if places.is_outside(chan) {
        text.extend_from_slice(b" (outside)")?;
    }
    Ok(())
}
