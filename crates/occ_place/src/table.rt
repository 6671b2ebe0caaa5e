use crate::rows::push_spaces;
use occ_syntax::Memory;
use std::alloc::Global;

/// The most columns of characters that a line of a table has, where a cell can be cut.
const WIDTH: usize = 98;

/// A line of a table, by its cells. The last cell of a line that has fewer than the first line makes no column wider.
#[derive(Drop)]
pub struct Line {
    pub cells: Vec<Vec<u8>>,
}

/// How the columns of a table are written.
#[derive(Clone, Copy, Debug)]
pub struct Columns {
    /// The column that is set to the right.
    pub right: usize,
    /// The column that is cut where lines are too long.
    pub cut: usize,
}

/// Adds a table: each line with two spaces in front, and two between its cells at least. The first line has the heads.
pub fn push_table(
    alloc: Global,
    text: &mut Vec<u8>,
    lines: &[Line],
    columns: Columns,
) -> Result<(), Memory> {
    let widths = widths_of(alloc, lines, columns)?;
    for line in lines {
        push_line(text, line, &widths, columns)?;
        text.push(b'\n')?;
    }
    Ok(())
}

/// The widths of the columns, by the heads and the lines.
pub(crate) fn widths_of(
    alloc: Global,
    lines: &[Line],
    columns: Columns,
) -> Result<Vec<usize>, Memory> {
    let mut widths = Vec::new(alloc);
    if let Some(heads) = lines.first() {
        for _ in &heads.cells {
            widths.push(0)?;
        }
    }
    for line in lines {
        widen(&mut widths, line);
    }
    narrow(&mut widths, columns.cut);
    Ok(widths)
}

fn widen(widths: &mut Vec<usize>, line: &Line) {
    let many = widths.len();
    for (place, cell) in line.cells.iter().enumerate() {
        let spans = place + 1 == line.cells.len() && line.cells.len() < many;
        if let Some(width) = widths.get_mut(place) {
            if !spans {
                *width = (*width).max(cell.len());
            }
        }
    }
}

/// Takes from the width of the column that is cut what lines have too much.
fn narrow(widths: &mut Vec<usize>, cut: usize) {
    let mut all: usize = 0;
    for width in widths.iter() {
        all = all.saturating_add(*width).saturating_add(2);
    }
    if let Some(width) = widths.get_mut(cut) {
        *width = (*width).saturating_sub(all.saturating_sub(WIDTH)).max(9);
    }
}

/// Adds the cells of a line.
pub(crate) fn push_line(
    text: &mut Vec<u8>,
    line: &Line,
    widths: &[usize],
    columns: Columns,
) -> Result<(), Memory> {
    let mut behind: usize = 0;
    for (place, cell) in line.cells.iter().enumerate() {
        let width = match widths.get(place) {
            Some(width) => *width,
            None => cell.len(),
        };
        if cell.is_empty() {
            behind = behind.saturating_add(width).saturating_add(2);
        } else {
            push_spaces(text, behind.saturating_add(2))?;
            behind = push_cell(
                text,
                cell,
                width,
                (place == columns.right, place == columns.cut),
            )?;
        }
    }
    Ok(())
}

/// Adds a cell, and says how many spaces are to follow it.
fn push_cell(
    text: &mut Vec<u8>,
    cell: &[u8],
    width: usize,
    how: (bool, bool),
) -> Result<usize, Memory> {
    if how.1 && cell.len() > width {
        text.extend_from_slice(&cell[..width.saturating_sub(3)])?;
        text.extend_from_slice(b"...")?;
        return Ok(0);
    }
    let space = width.saturating_sub(cell.len());
    if how.0 {
        push_spaces(text, space)?;
        text.extend_from_slice(cell)?;
        return Ok(0);
    }
    text.extend_from_slice(cell)?;
    Ok(space)
}
