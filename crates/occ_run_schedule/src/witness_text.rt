ghost use Rattle.std.specs.Prelude.{◌≡◌, ◌++◌, IfOk, MatchOption, OnOk};
ghost use Rattle.std.specs.List.{flat_map, list_all};
ghost use Rattle.occ_run_schedule.specs.WitnessTexts.{IsTooLong, IsReadable, is_small, schedule_text as text_of, step_text};

use occ_run::push_state;
use occ_syntax::{Memory, Name, push_number};
use std::alloc::Global;

/// How many bytes the text of a schedule has at most.
const MOST_BYTES: usize = 65_536;

/// Below which number a step's number is.
const NUMBERS: usize = 0x1_0000_0000;

/// The text of a schedule, where it is one that is read; none where a number is too great or the text too long.
pub(crate) fn readable_text(
    alloc: Global,
    state: &[(Name, u8)],
    steps: &[usize],
) -> Result<Option<Vec<u8>>, Memory>
    ensures { IfOk result (λ told. MatchOption told (IsTooLong state.now steps.now) (λ text. IsReadable state.now steps.now text.items)) }
{
    if !are_small(steps) {
        return Ok(None);
    }
    let text = schedule_text(alloc, state, steps)?;
    if text.len() > MOST_BYTES {
        return Ok(None);
    }
    Ok(Some(text))
}

/// Whether each of the numbers is one that a schedule can name.
fn are_small(steps: &[usize]) -> bool
    ensures { result ≡ list_all is_small steps.now }
{
    let mut rest = steps;
    while let [step, later @ ..] = rest {
        if *step >= NUMBERS {
            return false;
        }
        rest = later;
    }
    true
}

/// The text of a schedule.
fn schedule_text(alloc: Global, state: &[(Name, u8)], steps: &[usize]) -> Result<Vec<u8>, Memory>
    ensures { IfOk result (λ text. text.items ≡ text_of state.now steps.now) }
{
    let mut text = Vec::from_slice(alloc, b"occam-schedule 1\nSTATE ")?;
    push_state(&mut text, state)?;
    text.extend_from_slice(b"\n")?;
    push_steps(&mut text, steps)?;
    Ok(text)
}

fn push_steps(text: &mut Vec<u8>, steps: &[usize]) -> Result<(), Memory>
    ensures { OnOk result (text.new.items ≡ text.old.items ++ flat_map step_text steps.now) }
{
    for step in steps {
        push_step(text, *step)?;
    }
    Ok(())
}

fn push_step(text: &mut Vec<u8>, step: usize) -> Result<(), Memory>
    ensures { OnOk result (text.new.items ≡ text.old.items ++ step_text step) }
{
    text.extend_from_slice(b"STEP ")?;
    push_number(text, step as u64)?;
    text.extend_from_slice(b"\n")?;
    Ok(())
}
