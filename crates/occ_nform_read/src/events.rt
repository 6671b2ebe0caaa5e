ghost use Rattle.std.specs.Prelude.{◌≡◌, ◌∷◌, [], ◌++◌, ◌+◌, ◌*◌, ◌≤◌, ◌<◌, length, IfOk, Option, Some, None};
ghost use Rattle.occ_nform_table.specs.occ_behaviour.Texts.{mark_text};
ghost use Rattle.occ_nform_table.specs.Words.{Finds, each, items_of};
ghost use Rattle.occ_nform_table.specs.Lines.{AreNamed, HasWidth, HaveWidths, event_on, event_of, text_of, rank, is_rising, set_of, accept_of, offer_of};

use crate::states::fitting;
use crate::words::{behind, between, cut, lower, small_number_of};
use occ_nform_table::rank;
use occ_syntax::{Dir, Event, Events, Kind, Memory, Name, Names};
use std::alloc::Global;

fn mark(dir: Dir) -> &'static [u8]
    ensures { result.now ≡ mark_text dir }
{
    match dir {
        Dir::Input => b"?",
        Dir::Output => b"!",
    }
}

/// The event on a channel that a word is.
#[tactic(auto, unfolding(occ_nform_table::specs::Lines::event_on))]
fn event_on(text: &[u8], name: Name, kind: Kind, word: &[u8]) -> Option<Event>
    requires { HasWidth kind }
    ensures { result ≡ event_on text.now name kind word.now }
{
    match kind {
        Kind::Chan(width, Some(dir)) => {
            let Some(marked) = behind(text, word) else {
                return None;
            };
            let Some(numeral) = behind(mark(dir), marked) else {
                return None;
            };
            let Some(number) = small_number_of(numeral) else {
                return None;
            };
            match fitting(width, number) {
                Some(value) => Some(Event {
                    chan: name,
                    dir,
                    value,
                }),
                None => None,
            }
        }
        Kind::Chan(_, None) => None,
        Kind::Var(_) => None,
    }
}

/// The event of the interface that a word is.
#[tactic(auto, unfolding(occ_nform_table::specs::Lines::event_of))]
pub fn event_of(names: &Names, params: &[(Name, Kind)], word: &[u8]) -> Option<Event>
    requires named { AreNamed names.now params.now }
    requires wide { HaveWidths params.now }
    ensures { result ≡ event_of names.now params.now word.now }
{
    match params {
        [] => None,
        [(name, kind), rest @ ..] => match event_on(names.text(*name), *name, *kind, word) {
            Some(event) => Some(event),
            None => event_of(names, rest, word),
        },
    }
}

/// The events that words are, with single spaces between them, where each is one.
pub fn events_of(
    alloc: Global,
    names: &Names,
    params: &[(Name, Kind)],
    text: &[u8],
) -> Result<Option<Events>, Memory>
    requires named { AreNamed names.now params.now }
    requires wide { HaveWidths params.now }
    ensures { IfOk result (λ events. events ≡ each (event_of names.now params.now) (items_of text.now)) }
{
    let mut events = Events::new(alloc);
    if text.is_empty() {
        return Ok(Some(events));
    }
    let mut rest = text;
    while let Some((word, others)) = cut(b' ', rest) {
        let Some(event) = event_of(names, params, word) else {
            return Ok(None);
        };
        events.push(event)?;
        rest = others;
    }
    let Some(event) = event_of(names, params, rest) else {
        return Ok(None);
    };
    events.push(event)?;
    Ok(Some(events))
}

/// Whether the events increase strictly.
fn are_rising(params: &[(Name, Kind)], events: &[Event]) -> bool
    requires { length params.now ≤ 16 }
    ensures { result ≡ is_rising params.now 0 events.now }
{
    let mut floor = 0;
    for event in events {
        let rank = rank(params, *event);
        if rank < floor {
            return false;
        }
        floor = rank + 1;
    }
    true
}

/// The set whose events a text writes.
#[tactic(auto, unfolding(occ_nform_table::specs::Lines::set_of))]
pub fn set_of(
    alloc: Global,
    names: &Names,
    params: &[(Name, Kind)],
    text: &[u8],
) -> Result<Option<Events>, Memory>
    requires named { AreNamed names.now params.now }
    requires wide { HaveWidths params.now }
    requires few { length params.now ≤ 16 }
    ensures { IfOk result (λ events. events ≡ set_of names.now params.now text.now) }
{
    let Some(events) = events_of(alloc, names, params, text)? else {
        return Ok(None);
    };
    if are_rising(params, events.items()) {
        Ok(Some(events))
    } else {
        Ok(None)
    }
}

/// The set of an ACCEPT line.
#[tactic(auto, unfolding(occ_nform_table::specs::Lines::accept_of))]
pub fn accept_of(
    alloc: Global,
    names: &Names,
    params: &[(Name, Kind)],
    line: &[u8],
) -> Result<Option<Events>, Memory>
    requires named { AreNamed names.now params.now }
    requires wide { HaveWidths params.now }
    requires few { length params.now ≤ 16 }
    ensures { IfOk result (λ events. events ≡ accept_of names.now params.now line.now) }
{
    match between(b"ACCEPT {", b"}\n", line) {
        Some(text) => set_of(alloc, names, params, text),
        None => Ok(None),
    }
}

/// The event and the row of an OFFER line of row n.
#[tactic(auto, unfolding(occ_nform_table::specs::Lines::offer_of))]
pub fn offer_of(names: &Names, params: &[(Name, Kind)], n: u64, line: &[u8]) -> Option<(Event, u32)>
    requires named { AreNamed names.now params.now }
    requires wide { HaveWidths params.now }
    requires number { n ≤ 4294967295 }
    ensures { result ≡ offer_of names.now params.now n line.now }
{
    let Some(text) = between(b"OFFER ", b"\n", line) else {
        return None;
    };
    let Some((word, numeral)) = cut(b' ', text) else {
        return None;
    };
    let Some(event) = event_of(names, params, word) else {
        return None;
    };
    match lower(n, numeral) {
        Some(row) => Some((event, row)),
        None => None,
    }
}
