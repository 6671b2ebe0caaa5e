//! The rows of a table of steps.

ghost use Rattle.std.specs.Prelude.{◌≡◌, ◌++◌, ◌-◌, OnOk, replicate};
ghost use Rattle.std.specs.List.{All, flat_map};
ghost use Rattle.occ_place.specs.Steps.{SpanIsNamed, events_text, numbers_text, row_text};

use crate::row::Row;
use crate::spans::Span;
use occ_run::{Move, push_event};
use occ_syntax::{Memory, Names, push_number};
use std::alloc::Global;

/// Adds the rows of a table of steps.
pub fn push_rows(text: &mut Vec<u8>, names: &Names, rows: &[Row]) -> Result<(), Memory>
    requires { All (λ row. SpanIsNamed names.now row.span) rows.now }
    ensures { OnOk result (text.new.items ≡ text.old.items ++ flat_map (row_text names.now) rows.now) }
{
    for row in rows {
        push_row(text, names, row)?;
    }
    Ok(())
}

fn push_row(text: &mut Vec<u8>, names: &Names, row: &Row) -> Result<(), Memory>
    requires { SpanIsNamed names.now row.now.span }
    ensures { OnOk result (text.new.items ≡ text.old.items ++ row_text names.now row.now) }
{
    push_spaces(text, row.pad)?;
    push_numbers(text, row.span)?;
    push_events(text, names, row.span)?;
    text.extend_from_slice(&row.tail)?;
    text.extend_from_slice(b"\n")?;
    Ok(())
}

pub(crate) fn push_spaces(text: &mut Vec<u8>, count: usize) -> Result<(), Memory>
    ensures { OnOk result (text.new.items ≡ text.old.items ++ replicate count 32) }
{
    for _space in 0..count {
        text.push(b' ')?;
    }
    Ok(())
}

/// Adds the numbers of a span.
pub(crate) fn push_numbers(text: &mut Vec<u8>, span: Span) -> Result<(), Memory>
    ensures { OnOk result (text.new.items ≡ text.old.items ++ numbers_text span) }
{
    push_number(text, span.from)?;
    if span.last != span.from {
        text.extend_from_slice(b"-")?;
        push_number(text, span.last)?;
    }
    Ok(())
}

/// Adds the events of a span; nothing where they are unseen.
pub(crate) fn push_events(text: &mut Vec<u8>, names: &Names, span: Span) -> Result<(), Memory>
    requires { SpanIsNamed names.now span }
    ensures { OnOk result (text.new.items ≡ text.old.items ++ events_text names.now span.first (span.last - span.from)) }
{
    let Move::Seen(event) = span.first else {
        return Ok(());
    };
    text.extend_from_slice(b"  ")?;
    push_event(text, names, event)?;
    let more = span.last.saturating_sub(span.from);
    if more != 0 {
        text.extend_from_slice(b"..")?;
        push_number(text, u64::from(event.value).saturating_add(more))?;
    }
    Ok(())
}
