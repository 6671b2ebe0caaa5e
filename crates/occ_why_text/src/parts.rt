use crate::subject::Subject;
use occ_place::{Columns, Line, NOWHERE, Part, Places, push_part, push_table};
use occ_syntax::{Memory, push_number};

/// How many characters of a comment are shown at most.
const MOST_SHOWN: usize = 58;

/// Adds the parts of a program, where it has any: their names, lines, copies and comments.
pub(crate) fn push_parts(text: &mut Vec<u8>, subject: &Subject) -> Result<(), Memory> {
    if !subject.has_parts() {
        return Ok(());
    }
    let places = subject.places;
    text.extend_from_slice(b"\nThe parts of ")?;
    text.extend_from_slice(subject.file)?;
    text.extend_from_slice(b":\n\n")?;
    let groups = groups(places)?;
    let copies = has_copies(places, &groups);
    let mut lines = Vec::new(places.alloc());
    for group in &groups {
        lines.push(line_of(places, *group, copies)?)?;
    }
    let cut = if copies { 3 } else { 2 };
    push_table(
        places.alloc(),
        text,
        &lines,
        Columns {
            right: NOWHERE,
            cut,
        },
    )
}

/// Whether a part is told of.
fn is_told(places: &Places, number: usize, part: &Part) -> bool {
    if part.acts {
        return true;
    }
    for other in &places.layout.parts {
        if other.outer == number {
            return false;
        }
    }
    true
}

/// The parts that are told of, each with how many copies follow it.
fn groups(places: &Places) -> Result<Vec<(usize, usize)>, Memory> {
    let mut groups: Vec<(usize, usize)> = Vec::new(places.alloc());
    for (number, part) in places.layout.parts.iter().enumerate() {
        if is_told(places, number, part) {
            let mut more = true;
            if let Some(last) = groups.last_mut() {
                if places.layout.follows(last.0, number, last.1) {
                    last.1 = last.1.saturating_add(1);
                    more = false;
                }
            }
            if more {
                groups.push((number, 0))?;
            }
        }
    }
    Ok(groups)
}

fn has_copies(places: &Places, groups: &[(usize, usize)]) -> bool {
    for (number, _) in groups {
        if let Some(part) = places.layout.parts.get(*number) {
            if part.copy.is_some() {
                return true;
            }
        }
    }
    false
}

fn line_of(places: &Places, group: (usize, usize), copies: bool) -> Result<Line, Memory> {
    let alloc = places.alloc();
    let mut name = Vec::new(alloc);
    push_part(places, &mut name, group.0, group.1)?;
    let mut lines = Vec::new(alloc);
    let mut index = Vec::new(alloc);
    let mut comment = Vec::new(alloc);
    if let Some(part) = places.layout.parts.get(group.0) {
        push_lines(&mut lines, part.first, part.last)?;
        push_index(&mut index, places, part, group.1)?;
        let above = places.source.comment_above(part.first);
        push_comment(
            &mut comment,
            if above.is_empty() {
                places.source.comment_above(part.header)
            } else {
                above
            },
        )?;
    }
    let mut cells = Vec::new(alloc);
    cells.push(name)?;
    cells.push(lines)?;
    if copies {
        cells.push(index)?;
    }
    cells.push(comment)?;
    Ok(Line { cells })
}

fn push_comment(text: &mut Vec<u8>, comment: &[u8]) -> Result<(), Memory> {
    if comment.len() > MOST_SHOWN {
        text.extend_from_slice(&comment[..MOST_SHOWN - 3])?;
        text.extend_from_slice(b"...")?;
    } else {
        text.extend_from_slice(comment)?;
    }
    Ok(())
}

fn push_lines(text: &mut Vec<u8>, first: u32, last: u32) -> Result<(), Memory> {
    if first == last {
        text.extend_from_slice(b"line ")?;
        push_number(text, u64::from(first))?;
    } else {
        text.extend_from_slice(b"lines ")?;
        push_number(text, u64::from(first))?;
        text.push(b'-')?;
        push_number(text, u64::from(last))?;
    }
    Ok(())
}

/// Adds the values of the index of copies: `i = 0..2`.
fn push_index(text: &mut Vec<u8>, places: &Places, part: &Part, more: usize) -> Result<(), Memory> {
    let (Some(copy), Some(counter)) = (part.copy, places.layout.counters.get(part.counter)) else {
        return Ok(());
    };
    text.extend_from_slice(places.text(counter.name))?;
    text.extend_from_slice(b" = ")?;
    push_number(text, u64::from(copy))?;
    if more > 0 {
        text.extend_from_slice(b"..")?;
        push_number(text, u64::from(copy).saturating_add(more as u64))?;
    }
    Ok(())
}
