ghost use Rattle.std.specs.Prelude.{◌≡◌, ◌≤◌, drop, length, max, IfOk, true};
ghost use Rattle.occ_behaviour_read.specs.occ_lex.Rows.{rows};
ghost use Rattle.occ_run.specs.occ_behaviour.States.{is_state};
ghost use Rattle.occ_behaviour_read.specs.occ_nform_table.Lines.{HaveWidths};
ghost use Rattle.occ_behaviour_read.specs.Claims.{bare_lines, line_read, state_line};
ghost use Rattle.occ_run_schedule.specs.declared.schedule.ScheduleFault.TheVariants as fault;
ghost use Rattle.occ_run_schedule.specs.Schedules.{Gives, later_lines, schedule_read, step_line, steps_from, version_line};

use occ_behaviour_read::{
    bare, behind, first_line, last_number, line, small_number_of, state_line,
};
use occ_syntax::{Kind, List, Memory, Name, State};
use std::alloc::Global;
use thiserror::Error;

/// A schedule: the state to begin with, and the numbers of the steps in turn, each from 0.
#[derive(Debug, Drop)]
pub struct Schedule {
    pub state: State,
    pub steps: List<u32>,
}

/// Why a text is no schedule.
#[derive(Clone, Copy, Debug, PartialEq, Eq, Error)]
pub enum ScheduleFault {
    /// The least line that isn't of the form for its place; where the text ends too early its last line, or line 1 of an
    /// empty text.
    #[error("line {line}: not of the form for its place")]
    Form { line: u32 },
    /// Want of memory.
    #[error("out of memory")]
    Memory,
}

impl From<Memory> for ScheduleFault {
    ghost from_gives = { λ _ e. e ≡ fault.Memory };

    fn from(_cause: Memory) -> ScheduleFault {
        ScheduleFault::Memory
    }
}

/// The schedule that a text writes, for a program with these parameters: the line `occam-schedule 1`, a line `STATE`, and
/// any number of lines `STEP`. A carriage return directly before a line feed is part of the line's end, and the last line
/// feed may be missing.
pub fn read(alloc: Global, params: &[(Name, Kind)], text: &[u8]) -> Result<Schedule, ScheduleFault>
    requires wide { HaveWidths params.now }
    requires short { length text.now ≤ 65536 }
    ensures read { Gives (schedule_read params.now text.now) result }
    ensures state { IfOk result (λ schedule. is_state params.now schedule.state ≡ true) }
{
    version_at(text)?;
    let state = state_at(alloc, params, text)?;
    let steps = steps_in(alloc, text)?;
    Ok(Schedule { state, steps })
}

/// The fault of a text that has too few lines.
fn too_short(text: &[u8]) -> ScheduleFault
    requires { length text.now ≤ 65536 }
    ensures { result ≡ ScheduleFault.Form (max (length (bare_lines text.now)) 1) }
{
    ScheduleFault::Form {
        line: last_number(text),
    }
}

fn version_at(text: &[u8]) -> Result<bool, ScheduleFault>
    requires { length text.now ≤ 65536 }
    ensures { Gives (line_read (bare_lines text.now) 0 version_line) result }
{
    let Some(line) = line(text, 0) else {
        return Err(too_short(text));
    };
    match version_line(line) {
        Some(version) => Ok(version),
        None => Err(ScheduleFault::Form { line: 1 }),
    }
}

/// Whether a line is the one that each schedule begins with.
#[tactic(auto, unfolding(crate::specs::Schedules::version_line))]
fn version_line(line: &[u8]) -> Option<bool>
    ensures { result ≡ version_line line.now }
{
    if line == b"occam-schedule 1".as_slice() {
        Some(true)
    } else {
        None
    }
}

#[tactic(auto, using(occ_behaviour_read::proofs::Stating::state_stated))]
fn state_at(alloc: Global, params: &[(Name, Kind)], text: &[u8]) -> Result<State, ScheduleFault>
    requires wide { HaveWidths params.now }
    requires short { length text.now ≤ 65536 }
    ensures read { Gives (line_read (bare_lines text.now) 1 (state_line params.now)) result }
    ensures state { IfOk result (λ state. is_state params.now state ≡ true) }
{
    let Some(line) = line(text, 1) else {
        return Err(too_short(text));
    };
    match state_line(alloc, params, line)? {
        Some(state) => Ok(state),
        None => Err(ScheduleFault::Form { line: 2 }),
    }
}

/// The steps behind the first two lines.
#[tactic(auto, using(crate::proofs::Stepping::two_dropped))]
fn steps_in(alloc: Global, text: &[u8]) -> Result<List<u32>, ScheduleFault>
    requires { length text.now ≤ 65536 }
    ensures { Gives (steps_from 2 (later_lines text.now)) result }
{
    let rest = behind_line(text);
    let rest = behind_line(rest);
    steps_of(alloc, rest)
}

/// The text behind its first line.
fn behind_line(text: &[u8]) -> &[u8]
    ensures rows { rows result.now ≡ drop 1 (rows text.now) }
    ensures shorter { length result.now ≤ length text.now }
{
    match first_line(text) {
        Some((_, after)) => after,
        None => text,
    }
}

/// The steps that the lines of a text say, of which the first is the third of the schedule.
#[tactic(auto, using(crate::proofs::Stepping::begun, crate::proofs::Stepping::onward, crate::proofs::Stepping::failed, crate::proofs::Stepping::over))]
fn steps_of(alloc: Global, text: &[u8]) -> Result<List<u32>, ScheduleFault>
    requires { length text.now ≤ 65536 }
    ensures { Gives (steps_from 2 (bare_lines text.now)) result }
{
    let mut steps = List::new(alloc);
    let mut before: u32 = 2;
    let mut rest = text;
    'lines: while let Some((row, after)) = first_line(rest) {
        match step_line(bare(row)) {
            Some(step) => steps.push(step)?,
            None => return Err(ScheduleFault::Form { line: before + 1 }),
        }
        before += 1;
        rest = after;
    }
    Ok(steps)
}

/// The number of a step that a line says.
#[tactic(auto, unfolding(crate::specs::Schedules::step_line))]
fn step_line(line: &[u8]) -> Option<u32>
    ensures { result ≡ step_line line.now }
{
    match behind(b"STEP ", line) {
        Some(word) => small_number_of(word),
        None => None,
    }
}
