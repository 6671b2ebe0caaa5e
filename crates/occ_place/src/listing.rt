//! The table of the steps that can be taken.

ghost use Rattle.std.specs.Prelude.{◌≡◌, ◌++◌, IfOk, OnOk, map, List, ℕ};
ghost use Rattle.std.specs.List.{All};
ghost use Rattle.occ_place.specs.Steps.{MoveIsNamed, SpanIsNamed, TellsSteps};

use crate::cells::{event_cell, line_cell, statement_cell, values_cell, who_cell};
use crate::doing::{Deed, Told, tell};
use crate::places::Places;
use crate::row::{Row, row_of};
use crate::rows::{push_events, push_numbers, push_rows};
use crate::spans::{Span, spans_of};
use crate::table::{Columns, Line, push_line, widths_of};
use occ_run::{Move, Point};
use occ_syntax::{Memory, Names};
use std::alloc::Global;

/// What is told of the steps at a point of the places, in their order.
pub fn told_at<'p>(places: &'p Places, point: &Point<'p>) -> Result<Vec<Option<Told>>, Memory> {
    let mut told = Vec::new(places.alloc());
    for offer in &point.offers()? {
        told.push(tell(places, point, offer)?)?;
    }
    Ok(told)
}

/// A table of steps: the line of its heads, and its rows.
#[derive(Drop)]
pub struct Listing {
    pub heads: Vec<u8>,
    pub rows: Vec<u8>,
}

/// The table of the steps of a machine, by what is seen of each. `told` says the same steps in the same order; without places there is
/// nothing told.
pub fn list_steps(
    alloc: Global,
    names: &Names,
    moves: &[Move],
    places: Option<&Places>,
    told: &[Option<Told>],
) -> Result<Listing, Memory>
    requires { All (MoveIsNamed names.now) moves.now }
    ensures { IfOk result (λ listing. TellsSteps names.now moves.now listing.rows.items) }
{
    let spans = spans_of(alloc, moves, told)?;
    let lines = lines_of(alloc, names, &spans, places, told)?;
    let widths = widths_of(alloc, &lines, COLUMNS)?;
    let mut heads = Vec::new(alloc);
    if let Some(line) = lines.first() {
        push_line(&mut heads, line, &widths, COLUMNS)?;
    }
    let rows = rows_of(alloc, &spans, &lines, &widths)?;
    let mut text = Vec::new(alloc);
    push_rows(&mut text, names, &rows)?;
    Ok(Listing { heads, rows: text })
}

const COLUMNS: Columns = Columns { right: 0, cut: 4 };

const HEADS: [&[u8]; 6] = [
    b"n",
    b"event (unseen)",
    b"who",
    b"line",
    b"statement",
    b"values",
];

/// The lines of the table, that of the heads first.
fn lines_of(
    alloc: Global,
    names: &Names,
    spans: &[Span],
    places: Option<&Places>,
    told: &[Option<Told>],
) -> Result<Vec<Line>, Memory>
    requires { All (SpanIsNamed names.now) spans.now }
{
    let mut lines = Vec::new(alloc);
    let mut cells = Vec::new(alloc);
    for head in &HEADS {
        cells.push(Vec::from_slice(alloc, *head)?)?;
    }
    lines.push(Line { cells })?;
    for span in spans {
        let mut number = Vec::new(alloc);
        push_numbers(&mut number, *span)?;
        let mut cells = Vec::new(alloc);
        cells.push(number)?;
        cells.push(events_cell(alloc, names, *span)?)?;
        if let Some(places) = places {
            if let Some(Some(first)) = told.get(span.from as usize) {
                add_cells(places, &mut cells, first, value_at(told, span.last))?;
            }
        }
        lines.push(Line { cells })?;
    }
    Ok(lines)
}

/// The events of a span; nothing where they are unseen.
fn events_cell(alloc: Global, names: &Names, span: Span) -> Result<Vec<u8>, Memory>
    requires { SpanIsNamed names.now span }
{
    let mut text = Vec::new(alloc);
    push_events(&mut text, names, span)?;
    match text.as_slice() {
        [_, _, events @ ..] => Ok(Vec::from_slice(alloc, events)?),
        _ => Ok(Vec::new(alloc)),
    }
}

/// The value of the step of a number.
fn value_at(told: &[Option<Told>], number: u64) -> u8 {
    match told.get(number as usize) {
        Some(Some(told)) => told.value,
        _ => 0,
    }
}

/// Adds what is told of steps to the cells of their row.
fn add_cells(
    places: &Places,
    cells: &mut Vec<Vec<u8>>,
    told: &Told,
    last: u8,
) -> Result<(), Memory> {
    if let Some(event) = cells.get_mut(1) {
        if event.is_empty() {
            event.extend_from_slice(&event_cell(places, told, last)?)?;
        }
    }
    let values = values_cell(places, told, last)?;
    if let Deed::Begin(_) = told.first.deed {
        cells.push(values)?;
        return Ok(());
    }
    cells.push(who_cell(places, told)?)?;
    cells.push(line_cell(places, told)?)?;
    cells.push(statement_cell(places, told)?)?;
    cells.push(values)?;
    Ok(())
}

/// The rows of spans, by their lines behind that of the heads.
fn rows_of(
    alloc: Global,
    spans: &[Span],
    lines: &[Line],
    widths: &[usize],
) -> Result<Vec<Row>, Memory>
    ensures { IfOk result (λ rows. map (λ row. row.span) rows.items ≡ spans.now) }
{
    let mut rows = Vec::new(alloc);
    for (place, span) in spans.iter().enumerate() {
        rows.push(row_at(alloc, *span, lines.get(place.saturating_add(1)), widths)?)?;
    }
    Ok(rows)
}

/// The row of a span, by its line.
fn row_at(alloc: Global, span: Span, line: Option<&Line>, widths: &[usize]) -> Result<Row, Memory>
    ensures { IfOk result (λ row. row.span ≡ span) }
{
    let mut tail = Vec::new(alloc);
    let Some(line) = line else {
        return Ok(row_of(alloc, span, 2, tail));
    };
    let number = len_of(line, 0);
    let event = match span.first {
        Move::Unseen => 0,
        Move::Seen(_) => len_of(line, 1).saturating_add(2),
    };
    let width = match widths.first() {
        Some(width) => *width,
        None => number,
    };
    let pad = width.saturating_sub(number).saturating_add(2);
    let mut whole = Vec::new(alloc);
    push_line(&mut whole, line, widths, COLUMNS)?;
    let behind = pad.saturating_add(number).saturating_add(event);
    if behind < whole.len() {
        tail.extend_from_slice(&whole[behind..])?;
    }
    Ok(row_of(alloc, span, pad, tail))
}

fn len_of(line: &Line, place: usize) -> usize {
    match line.cells.get(place) {
        Some(cell) => cell.len(),
        None => 0,
    }
}
