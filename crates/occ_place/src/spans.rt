//! Steps in a row.

ghost use Rattle.std.specs.Prelude.{◌≡◌, ◌≤◌, ◌+◌, ◌-◌, ◌++◌, ◌∷◌, [], IfOk, ℕ, List, true};
ghost use Rattle.std.specs.List.{All};
ghost use Rattle.occ_place.specs.Steps.{MoveIsNamed, SpanIsNamed, advanced, numbered, spell_span, spelled};

use crate::doing::Told;
use occ_run::Move;
use occ_syntax::{Event, Memory};
use std::alloc::Global;

/// Steps in a row: the number of the first and of the last, and what is seen of the first. They are all unseen, or their values go up
/// one by one.
#[derive(Clone, Copy, Debug)]
pub struct Span {
    pub from: u64,
    pub last: u64,
    pub first: Move,
}

/// The steps, by what is seen of each, as spans. What is told of them says which stand together.
pub fn spans_of(alloc: Global, moves: &[Move], told: &[Option<Told>]) -> Result<Vec<Span>, Memory>
    ensures all { IfOk result (λ spans. spelled spans.items ≡ numbered 0 moves.now) }
    ensures named { IfOk result (λ spans. (names : List (List ℕ)) → All (MoveIsNamed names) moves.now
        → All (SpanIsNamed names) spans.items) }
{
    let mut spans = Vec::new(alloc);
    let [first, later @ ..] = moves else {
        return Ok(spans);
    };
    let mut span = Span {
        from: 0,
        last: 0,
        first: *first,
    };
    let mut rest = later;
    while let [seen, later @ ..] = rest {
        let number = (moves.len() - rest.len()) as u64;
        span = grown(&mut spans, span, *seen, (number, goes_on(told, number)))?;
        rest = later;
    }
    spans.push(span)?;
    Ok(spans)
}

/// The span with the next step; where that doesn't go on with it, it joins the others, and the step begins a new one.
fn grown(spans: &mut Vec<Span>, span: Span, seen: Move, next: (u64, bool)) -> Result<Span, Memory>
    requires order { span.from ≤ span.last }
    requires next { next.0 ≡ span.last + 1 }
    ensures all { IfOk result (λ after. spelled spans.new.items ++ spell_span after
        ≡ spelled spans.old.items ++ spell_span span ++ (next.0, seen) ∷ []) }
    ensures order { IfOk result (λ after. after.from ≤ after.last) }
    ensures last { IfOk result (λ after. after.last ≡ next.0) }
    ensures named { IfOk result (λ after. (names : List (List ℕ)) → All (SpanIsNamed names) spans.old.items → SpanIsNamed names span
        → MoveIsNamed names seen → All (SpanIsNamed names) spans.new.items × SpanIsNamed names after) }
{
    let (number, joined) = next;
    if joined && joins(span, seen, number) {
        return Ok(Span {
            last: number,
            ..span
        });
    }
    spans.push(span)?;
    Ok(Span {
        from: number,
        last: number,
        first: seen,
    })
}

/// Whether what is seen of the step of a number goes on with what is seen of a span.
fn joins(span: Span, seen: Move, number: u64) -> bool
    ensures { result ≡ true → seen ≡ advanced span.first (number - span.from) }
{
    match span.first {
        Move::Unseen => matches!(seen, Move::Unseen),
        Move::Seen(event) => match seen {
            Move::Unseen => false,
            Move::Seen(next) => is_next(event, next, number.saturating_sub(span.from)),
        },
    }
}

fn is_next(event: Event, next: Event, more: u64) -> bool
    ensures { result ≡ true → Move.Seen next ≡ advanced (Move.Seen event) more }
{
    event.chan == next.chan
        && event.dir == next.dir
        && u64::from(next.value) == u64::from(event.value).saturating_add(more)
}

/// Whether the step of a number is told as the one before it, with the next value.
fn goes_on(told: &[Option<Told>], number: u64) -> bool {
    let Some(Some(next)) = told.get(number as usize) else {
        return false;
    };
    match told.get((number as usize).saturating_sub(1)) {
        Some(Some(before)) => number > 0 && before.goes_on(next),
        _ => false,
    }
}
