use crate::begins::{Begin, begin_of, push_pieces};
use crate::behind::behind;
use occ_member::same_point;
use occ_place::{
    Columns, Line, Places, Told, event_cell, line_cell, push_table, statement_cell, tell,
    values_cell, who_cell,
};
use occ_run::Point;
use occ_syntax::{Memory, push_number};
use std::alloc::Global;

/// The numbers of the steps that the text of a schedule names.
fn steps_in(alloc: Global, schedule: &[u8]) -> Result<Vec<u32>, Memory> {
    let mut steps = Vec::new(alloc);
    let mut line: usize = 0;
    let mut number: u32 = 0;
    for byte in schedule {
        if *byte == b'\n' {
            if line >= 2 {
                steps.push(number)?;
            }
            line = line.saturating_add(1);
            number = 0;
        } else if byte.is_ascii_digit() {
            number = number
                .saturating_mul(10)
                .saturating_add(u32::from(byte.wrapping_sub(b'0')));
        }
    }
    Ok(steps)
}

/// The steps of a schedule, by their numbers, and where a program stands in front of each and behind the last one.
#[derive(Drop)]
pub struct Walk<'p> {
    steps: Vec<u32>,
    pub(crate) points: Vec<Point<'p>>,
}

/// The walk of a program from where it stands, by the steps that the text of a schedule names; None where one isn't there.
pub fn walked<'p>(
    alloc: Global,
    start: Point<'p>,
    schedule: &[u8],
) -> Result<Option<Walk<'p>>, Memory> {
    let steps = steps_in(alloc, schedule)?;
    let mut points = Vec::new(alloc);
    points.push(start)?;
    for step in &steps {
        let Some(next) = next_point(&points, *step)? else {
            return Ok(None);
        };
        points.push(next)?;
    }
    Ok(Some(Walk { steps, points }))
}

/// Where the step of a number leads from the last of some points.
fn next_point<'p>(points: &[Point<'p>], step: u32) -> Result<Option<Point<'p>>, Memory> {
    let Some(point) = points.last() else {
        return Ok(None);
    };
    let offers = point.offers()?;
    behind(point, &offers, step as usize)
}

/// The steps of a walk as they are told.
pub(crate) fn told_along<'p>(places: &'p Places, walk: &Walk<'p>) -> Result<Vec<Told>, Memory> {
    let mut told = Vec::new(places.alloc());
    for (order, step) in walk.steps.iter().enumerate() {
        if let Some(point) = walk.points.get(order) {
            if let Some(row) = told_step(places, point, *step)? {
                told.push(row)?;
            }
        }
    }
    Ok(told)
}

/// The step of a number at a point, as it is told.
fn told_step<'p>(places: &'p Places, point: &Point<'p>, step: u32) -> Result<Option<Told>, Memory> {
    let offers = point.offers()?;
    match offers.get(step as usize) {
        Some(offer) => tell(places, point, offer),
        None => Ok(None),
    }
}

/// A step from one point to another, as it is told.
pub(crate) fn told_between<'p>(
    places: &'p Places,
    one: &Point<'p>,
    other: &Point,
) -> Result<Option<Told>, Memory> {
    let offers = one.offers()?;
    for (number, offer) in offers.iter().enumerate() {
        if let Some(next) = behind(one, &offers, number)? {
            if same_point(&next, other) {
                return tell(places, one, offer);
            }
        }
    }
    Ok(None)
}

/// A row of the table of steps: its cells, and for beginnings of variables what they begin.
#[derive(Drop)]
struct Row {
    cells: Vec<Vec<u8>>,
    begins: Vec<Begin>,
    first: usize,
    last: usize,
}

/// Adds the table of the steps that a schedule takes.
pub(crate) fn push_route(text: &mut Vec<u8>, places: &Places, told: &[Told]) -> Result<(), Memory> {
    let alloc = places.alloc();
    let mut rows: Vec<Row> = Vec::new(alloc);
    for (order, step) in told.iter().enumerate() {
        let number = order.saturating_add(1);
        match begin_of(places, step) {
            Some(begin) => add_begin(alloc, &mut rows, begin, number)?,
            None => rows.push(row_of(places, step, number)?)?,
        }
    }
    let lines = lines_of(places, &rows)?;
    push_table(alloc, text, &lines, Columns { right: 0, cut: 4 })
}

/// Adds a beginning of a variable to those in front of it.
fn add_begin(
    alloc: Global,
    rows: &mut Vec<Row>,
    begin: Begin,
    number: usize,
) -> Result<(), Memory> {
    if let Some(row) = rows.last_mut() {
        if !row.begins.is_empty() {
            row.begins.push(begin)?;
            row.last = number;
            return Ok(());
        }
    }
    let mut begins = Vec::new(alloc);
    begins.push(begin)?;
    rows.push(Row {
        cells: Vec::new(alloc),
        begins,
        first: number,
        last: number,
    })?;
    Ok(())
}

fn row_of(places: &Places, step: &Told, number: usize) -> Result<Row, Memory> {
    let alloc = places.alloc();
    let last = step.value;
    let mut cells = Vec::new(alloc);
    cells.push(event_cell(places, step, last)?)?;
    cells.push(who_cell(places, step)?)?;
    cells.push(line_cell(places, step)?)?;
    cells.push(statement_cell(places, step)?)?;
    cells.push(values_cell(places, step, last)?)?;
    Ok(Row {
        cells,
        begins: Vec::new(alloc),
        first: number,
        last: number,
    })
}

/// The first cell of a row: `3`, `1-5`.
fn number_cell(alloc: Global, row: &Row) -> Result<Vec<u8>, Memory> {
    let mut cell = Vec::new(alloc);
    push_number(&mut cell, row.first as u64)?;
    if row.last > row.first {
        cell.push(b'-')?;
        push_number(&mut cell, row.last as u64)?;
    }
    Ok(cell)
}

/// The lines of the table, with its heads.
fn lines_of(places: &Places, rows: &[Row]) -> Result<Vec<Line>, Memory> {
    let alloc = places.alloc();
    let mut lines = Vec::new(alloc);
    let mut heads = Vec::new(alloc);
    for head in [
        b"step".as_slice(),
        b"event (unseen)",
        b"who",
        b"line",
        b"statement",
        b"values",
    ] {
        heads.push(Vec::from_slice(alloc, head)?)?;
    }
    lines.push(Line { cells: heads })?;
    let front = front_width(alloc, rows)?;
    for row in rows {
        let mut cells = Vec::new(alloc);
        cells.push(number_cell(alloc, row)?)?;
        if row.begins.is_empty() {
            for cell in &row.cells {
                cells.push(Vec::from_slice(alloc, cell)?)?;
            }
            lines.push(Line { cells })?;
        } else {
            cells.push(Vec::from_slice(alloc, b"begin")?)?;
            push_pieces(places, &mut lines, cells, &row.begins, front)?;
        }
    }
    Ok(lines)
}

/// How many columns stand in front of the cells of who.
fn front_width(alloc: Global, rows: &[Row]) -> Result<usize, Memory> {
    let mut number: usize = 4;
    let mut event: usize = 14;
    for row in rows {
        number = number.max(number_cell(alloc, row)?.len());
        if let Some(cell) = row.cells.first() {
            event = event.max(cell.len());
        }
    }
    Ok(number.saturating_add(event).saturating_add(6))
}
