ghost use Rattle.std.specs.Prelude.{◌≡◌, ◌≤◌, [], length, max, slice_get, codes, IfOk, Option, Some, None};
ghost use Rattle.occ_nform_read.specs.occ_nform_table.Lines.{HaveWidths, event_of, set_of, state_of};
ghost use Rattle.occ_nform_read.specs.occ_nform_table.Tables.{IsInterface};
ghost use Rattle.occ_nform_read.specs.occ_nform_table.Words.{Finds, between, each, then_read};
ghost use Rattle.occ_behaviour_read.specs.Claims.{bare, bare_lines, is_differ, last_line, only_line, spaced_words, state_line, trace_line};

use occ_compare::Last;
use occ_nform_read::{before, behind, between, events_of, first_line, set_of, state_of};
use occ_syntax::{Events, Kind, Memory, Name, Names, State};
use std::alloc::Global;

/// A row without its line end.
pub fn bare(row: &[u8]) -> &[u8]
    ensures { result.now ≡ bare row.now }
{
    if let Some(line) = before(b"\r\n", row) {
        return line;
    }
    match before(b"\n", row) {
        Some(line) => line,
        None => row,
    }
}

/// Line k of a text, counted from 0, without its line end.
#[tactic(auto, using(crate::proofs::Counting::line_there, crate::proofs::Counting::no_line, crate::proofs::Counting::behind_row))]
pub fn line(text: &[u8], k: u32) -> Option<&[u8]>
    ensures { Finds (λ line. line.now) result (slice_get (bare_lines text.now) k) }
{
    let mut rest = text;
    for _before in 0..k {
        let Some((_, after)) = first_line(rest) else {
            return None;
        };
        rest = after;
    }
    match first_line(rest) {
        Some((row, _)) => Some(bare(row)),
        None => None,
    }
}

/// The number of the last line of a text, counted from 1; 1 for an empty text.
#[tactic(auto, using(occ_nform_read::proofs::Steps::rows_count, crate::proofs::Counting::bare_count))]
pub fn last_number(text: &[u8]) -> u32
    requires { length text.now ≤ 65536 }
    ensures { result ≡ max (length (bare_lines text.now)) 1 }
{
    let mut count: u32 = 0;
    let mut rest = text;
    while let Some((_, after)) = first_line(rest) {
        count += 1;
        rest = after;
    }
    count.max(1)
}

/// Whether the line is `DIFFER`.
pub fn is_differ(text: &[u8]) -> bool
    ensures { result ≡ is_differ (slice_get (bare_lines text.now) 0) }
{
    match line(text, 0) {
        Some(line) => line == b"DIFFER".as_slice(),
        None => false,
    }
}

/// The state of a STATE line.
#[tactic(auto, unfolding(crate::specs::Claims::state_line))]
pub fn state_line(
    alloc: Global,
    params: &[(Name, Kind)],
    line: &[u8],
) -> Result<Option<State>, Memory>
    requires { HaveWidths params.now }
    ensures { IfOk result (λ state. state ≡ state_line params.now line.now) }
{
    match between(b"STATE [", b"]", line) {
        Some(text) => state_of(alloc, params, text),
        None => Ok(None),
    }
}

/// The events of a TRACE line.
#[tactic(auto, unfolding(crate::specs::Claims::trace_line))]
pub fn trace_line(
    alloc: Global,
    names: &Names,
    params: &[(Name, Kind)],
    line: &[u8],
) -> Result<Option<Events>, Memory>
    requires { IsInterface names.now params.now }
    ensures { IfOk result (λ trace. trace ≡ trace_line names.now params.now line.now) }
{
    match behind(b"TRACE", line) {
        Some(text) => spaced_events(alloc, names, params, text),
        None => Ok(None),
    }
}

/// The events that a text writes, each behind one space.
fn spaced_events(
    alloc: Global,
    names: &Names,
    params: &[(Name, Kind)],
    text: &[u8],
) -> Result<Option<Events>, Memory>
    requires { IsInterface names.now params.now }
    ensures { IfOk result (λ events. events ≡ then_read (spaced_words text.now) (each (event_of names.now params.now))) }
{
    match text {
        [] => Ok(Some(Events::new(alloc))),
        [_] => Ok(None),
        [first, rest @ ..] => {
            if *first == b' ' {
                events_of(alloc, names, params, rest)
            } else {
                Ok(None)
            }
        }
    }
}

/// How a behaviour stands after its trace: what a REFUSES or an ENDS line says.
#[tactic(auto, unfolding(crate::specs::Claims::last_line))]
pub fn last_line(
    alloc: Global,
    names: &Names,
    params: &[(Name, Kind)],
    line: &[u8],
) -> Result<Option<Last>, Memory>
    requires { IsInterface names.now params.now }
    ensures { IfOk result (λ last. last ≡ last_line names.now params.now line.now) }
{
    if let Some(refusal) = refusal(alloc, names, params, line)? {
        return Ok(Some(refusal));
    }
    final_state(alloc, params, line)
}

fn refusal(
    alloc: Global,
    names: &Names,
    params: &[(Name, Kind)],
    line: &[u8],
) -> Result<Option<Last>, Memory>
    requires { IsInterface names.now params.now }
    ensures { IfOk result (λ last. last ≡ then_read (between (codes "REFUSES {") (codes "}") line.now) (λ text. then_read (set_of names.now params.now text) (λ set. Some (Last.Refuses set)))) }
{
    let Some(text) = between(b"REFUSES {", b"}", line) else {
        return Ok(None);
    };
    match set_of(alloc, names, params, text)? {
        Some(set) => Ok(Some(Last::Refuses(set))),
        None => Ok(None),
    }
}

fn final_state(alloc: Global, params: &[(Name, Kind)], line: &[u8]) -> Result<Option<Last>, Memory>
    requires { HaveWidths params.now }
    ensures { IfOk result (λ last. last ≡ then_read (between (codes "ENDS [") (codes "]") line.now) (λ text. then_read (state_of params.now text) (λ state. Some (Last.Ends state)))) }
{
    let Some(text) = between(b"ENDS [", b"]", line) else {
        return Ok(None);
    };
    match state_of(alloc, params, text)? {
        Some(state) => Ok(Some(Last::Ends(state))),
        None => Ok(None),
    }
}

/// Whether the line is `ONLY FIRST` or `ONLY SECOND`.
#[tactic(auto, unfolding(crate::specs::Claims::only_line))]
pub fn only_line(line: &[u8]) -> Option<bool>
    ensures { result ≡ only_line line.now }
{
    if line == b"ONLY FIRST".as_slice() || line == b"ONLY SECOND".as_slice() {
        Some(true)
    } else {
        None
    }
}
