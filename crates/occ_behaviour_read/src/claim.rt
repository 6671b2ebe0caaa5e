ghost use Rattle.std.specs.Prelude.{◌≡◌, ◌≤◌, length, max, slice_get, true, IfOk};
ghost use Rattle.occ_compare.specs.occ_behaviour.States.{is_state};
ghost use Rattle.occ_nform_read.specs.occ_nform_table.Lines.{HaveWidths};
ghost use Rattle.occ_nform_read.specs.occ_nform_table.Tables.{IsInterface};
ghost use Rattle.occ_behaviour_read.specs.declared.claim.ClaimFault.TheVariants as fault;
ghost use Rattle.occ_behaviour_read.specs.Claims.{Gives, IsOf, LastIsOf, bare_lines, claim_read, closed, ends_at, last_line, line_read, only_line, state_line, trace_line};

use crate::lines::{is_differ, last_line, last_number, line, only_line, state_line, trace_line};
use occ_compare::{Behaviour, Last};
use occ_syntax::{Events, Kind, Memory, Name, Names, State};
use std::alloc::Global;
use thiserror::Error;

/// Why a text is no behaviour text.
#[derive(Clone, Copy, Debug, PartialEq, Eq, Error)]
pub enum ClaimFault {
    /// The least line that isn't of the form for its place; where the text ends too early its last line, or line 1 of an
    /// empty text.
    #[error("line {line}: not of the form for its place")]
    Form { line: u32 },
    /// Want of memory.
    #[error("out of memory")]
    Memory,
}

impl From<Memory> for ClaimFault {
    ghost from_gives = { λ _ e. e ≡ fault.Memory };

    fn from(_cause: Memory) -> ClaimFault {
        ClaimFault::Memory
    }
}

/// The behaviour that a text writes, of a program with these parameters: the lines `STATE`, `TRACE`, and `REFUSES` or `ENDS`,
/// which may stand between a line `DIFFER` and a line `ONLY FIRST` or `ONLY SECOND`. A carriage return directly before a line
/// feed is part of the line's end, and the last line feed may be missing.
pub fn read(
    alloc: Global,
    names: &Names,
    params: &[(Name, Kind)],
    text: &[u8],
) -> Result<Behaviour, ClaimFault>
    requires interface { IsInterface names.now params.now }
    requires short { length text.now ≤ 65536 }
    ensures read { Gives (claim_read names.now params.now text.now) result }
    ensures states { IfOk result (IsOf params.now) }
{
    let marked = is_differ(text);
    let first = u32::from(marked);
    let state = state_at(alloc, params, text, first)?;
    let trace = trace_at(alloc, names, params, text, first + 1)?;
    let last = last_at(alloc, names, params, text, first + 2)?;
    close(text, marked)?;
    Ok(Behaviour { state, trace, last })
}

/// The fault of a text that has no line k.
fn too_short(text: &[u8]) -> ClaimFault
    requires { length text.now ≤ 65536 }
    ensures { result ≡ ClaimFault.Form (max (length (bare_lines text.now)) 1) }
{
    ClaimFault::Form {
        line: last_number(text),
    }
}

#[tactic(auto, using(crate::proofs::Stating::state_stated))]
fn state_at(
    alloc: Global,
    params: &[(Name, Kind)],
    text: &[u8],
    k: u32,
) -> Result<State, ClaimFault>
    requires wide { HaveWidths params.now }
    requires short { length text.now ≤ 65536 }
    requires few { k ≤ 5 }
    ensures read { Gives (line_read (bare_lines text.now) k (state_line params.now)) result }
    ensures state { IfOk result (λ state. is_state params.now state ≡ true) }
{
    let Some(line) = line(text, k) else {
        return Err(too_short(text));
    };
    match state_line(alloc, params, line)? {
        Some(state) => Ok(state),
        None => Err(ClaimFault::Form { line: k + 1 }),
    }
}

fn trace_at(
    alloc: Global,
    names: &Names,
    params: &[(Name, Kind)],
    text: &[u8],
    k: u32,
) -> Result<Events, ClaimFault>
    requires interface { IsInterface names.now params.now }
    requires short { length text.now ≤ 65536 }
    requires few { k ≤ 5 }
    ensures { Gives (line_read (bare_lines text.now) k (trace_line names.now params.now)) result }
{
    let Some(line) = line(text, k) else {
        return Err(too_short(text));
    };
    match trace_line(alloc, names, params, line)? {
        Some(trace) => Ok(trace),
        None => Err(ClaimFault::Form { line: k + 1 }),
    }
}

#[tactic(auto, using(crate::proofs::Stating::last_stated))]
fn last_at(
    alloc: Global,
    names: &Names,
    params: &[(Name, Kind)],
    text: &[u8],
    k: u32,
) -> Result<Last, ClaimFault>
    requires interface { IsInterface names.now params.now }
    requires short { length text.now ≤ 65536 }
    requires few { k ≤ 5 }
    ensures read { Gives (line_read (bare_lines text.now) k (last_line names.now params.now)) result }
    ensures state { IfOk result (LastIsOf params.now) }
{
    let Some(line) = line(text, k) else {
        return Err(too_short(text));
    };
    match last_line(alloc, names, params, line)? {
        Some(last) => Ok(last),
        None => Err(ClaimFault::Form { line: k + 1 }),
    }
}

/// Whether the text ends behind the lines of its behaviour as it should.
fn close(text: &[u8], marked: bool) -> Result<bool, ClaimFault>
    requires { length text.now ≤ 65536 }
    ensures { Gives (closed (bare_lines text.now) marked) result }
{
    if !marked {
        return end_at(text, 3);
    }
    only_at(text)?;
    end_at(text, 5)
}

fn only_at(text: &[u8]) -> Result<bool, ClaimFault>
    requires { length text.now ≤ 65536 }
    ensures { Gives (line_read (bare_lines text.now) 4 only_line) result }
{
    let Some(line) = line(text, 4) else {
        return Err(too_short(text));
    };
    match only_line(line) {
        Some(one) => Ok(one),
        None => Err(ClaimFault::Form { line: 5 }),
    }
}

fn end_at(text: &[u8], k: u32) -> Result<bool, ClaimFault>
    requires { k ≤ 5 }
    ensures { Gives (ends_at k (slice_get (bare_lines text.now) k)) result }
{
    match line(text, k) {
        None => Ok(true),
        Some(_) => Err(ClaimFault::Form { line: k + 1 }),
    }
}
