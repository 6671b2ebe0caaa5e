ghost use Rattle.std.specs.Prelude.{◌≡◌, ◌++◌, ◌∷◌, codes, decimal, IfOk, OnOk};
ghost use Rattle.std.specs.List.{flat_map};
ghost use Rattle.occ_run.specs.occ_behaviour.Members.{AreNamed};
ghost use Rattle.occ_run.specs.occ_behaviour.Texts.{event_text, state_text};
ghost use Rattle.occ_run_schedule.specs.Following.{FollowedIsNamed, ShownIsNamed};
ghost use Rattle.occ_run_schedule.specs.Texts.{followed_text as text_of, stand_text as text_of_stand};

use crate::{Followed, Shown};
use occ_run::{Behaviour, Last, Stand, behaviour_text, push_event, push_state};
use occ_syntax::{Events, Memory, Names, State, push_number};
use std::alloc::Global;

/// The lines about where a schedule leads.
pub fn followed_text(alloc: Global, names: &Names, followed: Followed) -> Result<Vec<u8>, Memory>
    requires { FollowedIsNamed names.now followed }
    ensures { IfOk result (λ text. text.items ≡ text_of names.now followed) }
{
    match followed {
        Followed::Stood(shown) => stand_text(alloc, names, shown),
        Followed::NoStep { step } => {
            let mut text = Vec::from_slice(alloc, b"REFUSED STEP ")?;
            push_number(&mut text, step)?;
            text.extend_from_slice(b" NoStep\n")?;
            Ok(text)
        }
    }
}

fn stand_text(alloc: Global, names: &Names, shown: Shown) -> Result<Vec<u8>, Memory>
    requires { ShownIsNamed names.now shown }
    ensures { IfOk result (λ text. text.items ≡ text_of_stand names.now shown shown.stand) }
{
    let Shown {
        state,
        trace,
        stand,
    } = shown;
    let mut text = Vec::new(alloc);
    let last = match stand {
        Stand::Ended(end) => {
            text.extend_from_slice(b"ENDED\n")?;
            Last::Ends(end)
        }
        Stand::Stuck(refused) => {
            text.extend_from_slice(b"STUCK\n")?;
            Last::Refuses(refused)
        }
        Stand::Stable { steps, refused } => {
            push_line(&mut text, b"STABLE ", steps)?;
            Last::Refuses(refused)
        }
        Stand::Moving { steps } => {
            push_line(&mut text, b"MOVING ", steps)?;
            push_begun(&mut text, names, &state, &trace)?;
            return Ok(text);
        }
    };
    let behaviour = Behaviour { state, trace, last };
    let lines = behaviour_text(alloc, names, &behaviour)?;
    text.extend_from_slice(lines.as_slice())?;
    Ok(text)
}

/// Adds the lines of a state and of a trace.
fn push_begun(
    text: &mut Vec<u8>,
    names: &Names,
    state: &State,
    trace: &Events,
) -> Result<(), Memory>
    requires { AreNamed names.now trace.now }
    ensures { OnOk result (text.new.items ≡ text.old.items ++ codes "STATE " ++ state_text state.now ++ codes "\n"
        ++ codes "TRACE" ++ flat_map (λ e. 32 ∷ event_text names.now e) trace.now ++ codes "\n") }
{
    text.extend_from_slice(b"STATE ")?;
    push_state(text, state.items())?;
    text.extend_from_slice(b"\nTRACE")?;
    for event in trace.items() {
        text.extend_from_slice(b" ")?;
        push_event(text, names, *event)?;
    }
    text.extend_from_slice(b"\n")?;
    Ok(())
}

/// Adds a line with a number.
fn push_line(text: &mut Vec<u8>, words: &[u8], number: u64) -> Result<(), Memory>
    ensures { OnOk result (text.new.items ≡ text.old.items ++ words.now ++ decimal number ++ codes "\n") }
{
    text.extend_from_slice(words)?;
    push_number(text, number)?;
    text.extend_from_slice(b"\n")?;
    Ok(())
}
