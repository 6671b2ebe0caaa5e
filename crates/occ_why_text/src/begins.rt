use crate::phrases::WIDTH;
use occ_place::{Deed, Line, Places, Told, push_part};
use occ_syntax::{Memory, Name, push_number};

/// Variables of parts that follow one another, which begin with one value.
#[derive(Clone, Copy)]
pub(crate) struct Begin {
    part: usize,
    more: usize,
    name: Name,
    value: u8,
    line: u32,
}

/// The beginning of a variable, if that is what a step is.
pub(crate) fn begin_of(places: &Places, step: &Told) -> Option<Begin> {
    let Deed::Begin(name) = step.first.deed else {
        return None;
    };
    let site = places.layout.site_at(step.first.site);
    Some(Begin {
        part: site.part,
        more: 0,
        name,
        value: step.value,
        line: site.line,
    })
}

/// Beginnings with those of copies that follow one another made one.
fn joined(places: &Places, begins: &[Begin]) -> Result<Vec<Begin>, Memory> {
    let mut all: Vec<Begin> = Vec::new(places.alloc());
    for begin in begins {
        let mut more = true;
        if let Some(before) = all.last_mut() {
            let is_alike = before.name == begin.name
                && before.value == begin.value
                && before.line == begin.line;
            if is_alike && places.layout.follows(before.part, begin.part, before.more) {
                before.more = before.more.saturating_add(1);
                more = false;
            }
        }
        if more {
            all.push(*begin)?;
        }
    }
    Ok(all)
}

/// `P1[0..2].t = 0 (line 6)`
fn piece_of(places: &Places, begin: Begin) -> Result<Vec<u8>, Memory> {
    let mut piece = Vec::new(places.alloc());
    if places.layout.parts.len() > 1 {
        push_part(places, &mut piece, begin.part, begin.more)?;
        piece.push(b'.')?;
    }
    piece.extend_from_slice(places.text(begin.name))?;
    piece.extend_from_slice(b" = ")?;
    push_number(&mut piece, u64::from(begin.value))?;
    piece.extend_from_slice(b" (line ")?;
    push_number(&mut piece, u64::from(begin.line))?;
    piece.push(b')')?;
    Ok(piece)
}

/// Adds the lines of beginnings, whose first cells these are; in front of the last cell are so many columns.
pub(crate) fn push_pieces(
    places: &Places,
    lines: &mut Vec<Line>,
    cells: Vec<Vec<u8>>,
    begins: &[Begin],
    front: usize,
) -> Result<(), Memory> {
    let alloc = places.alloc();
    let mut cells = cells;
    let mut cell: Vec<u8> = Vec::new(alloc);
    for begin in &joined(places, begins)? {
        let piece = piece_of(places, *begin)?;
        if !cell.is_empty() {
            cell.push(b',')?;
            let end = front
                .saturating_add(cell.len())
                .saturating_add(piece.len())
                .saturating_add(2);
            if end > WIDTH {
                cells.push(cell)?;
                lines.push(Line { cells })?;
                cells = Vec::new(alloc);
                cells.push(Vec::new(alloc))?;
                cells.push(Vec::new(alloc))?;
                cell = Vec::new(alloc);
            } else {
                cell.push(b' ')?;
            }
        }
        cell.extend_from_slice(&piece)?;
    }
    cells.push(cell)?;
    lines.push(Line { cells })?;
    Ok(())
}
