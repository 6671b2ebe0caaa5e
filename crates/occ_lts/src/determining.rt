//! The answer to a file whose program may be deterministic.

ghost use Rattle.std.specs.Prelude.{◌≡◌, ◌⊎◌, ◌++◌, ◌∷◌, ℕ, List, Option, IfOk, OnOk, codes};
ghost use Rattle.std.specs.List.{All, flat_map};
ghost use Rattle.occ_traces.specs.Choices.{ChoiceIsNamed, HasNames};
ghost use Rattle.occ_tool_run.specs.occ_behaviour.Members.{AreNamed};
ghost use Rattle.occ_tool_run.specs.occ_behaviour.Texts.{event_text, state_text};
ghost use Rattle.occ_tool_run.specs.occ_call.Files.{IsLoaded, IsShort, most_bytes};
ghost use Rattle.occ_tool_run.specs.Judged.{HasInterface};
ghost use Rattle.occ_tool_run.specs.Stored.{seen};
ghost use Rattle.occ_lts.specs.Determined.{AnswersDeterministic, IsTold, choice_text, found_text};

use crate::command::refuse;
use occ_syntax::{Event, Memory, Names, State};
use occ_tool_run::accept::accept_first;
use occ_tool_run::{Accepted, Loaded, Reply, push_event, push_state};
use occ_traces::{Choice, Undetermined, find_undetermined};
use std::alloc::Global;

/// The reply to a file: whether its program is deterministic.
///
/// | status | comes exactly where | text |
/// |---|---|---|
/// | 0 | it is | `DETERMINISTIC` |
/// | 1 | it isn't | `NONDETERMINISTIC`, a state, a trace, and two things of which it can do either then |
/// | 3 | it is refused | the line that refuses it |
pub fn deterministic(alloc: Global, program: &Loaded) -> Result<Reply, Memory>
    requires { IsShort most_bytes program.now }
    ensures answers { IfOk result (λ reply. (file : Option (List ℕ)) → IsLoaded most_bytes file program.now
        → AnswersDeterministic file reply.status reply.text.items) }
    ensures status { IfOk result (λ reply. (reply.status ≡ 0) ⊎ ((reply.status ≡ 1) ⊎ (reply.status ≡ 3))) }
{
    let mut names = Names::new(alloc);
    match accept_first(alloc, &mut names, program) {
        Ok(accepted) => tell(alloc, &names, &accepted),
        Err(refusal) => refuse(alloc, names, refusal),
    }
}

/// The reply to an accepted program.
fn tell(alloc: Global, names: &Names, accepted: &Accepted) -> Result<Reply, Memory>
    requires { HasInterface names.now accepted.now.program }
    ensures told { IfOk result (λ reply. IsTold names.now (seen accepted.now.program) reply.status reply.text.items) }
    ensures status { IfOk result (λ reply. (reply.status ≡ 0) ⊎ (reply.status ≡ 1)) }
{
    let Some(found) = find_undetermined(alloc, accepted)? else {
        let plain = Vec::from_slice(alloc, b"DETERMINISTIC\n")?;
        return Ok(Reply {
            status: 0,
            text: plain,
        });
    };
    let text = found_text(alloc, names, &found)?;
    Ok(Reply { status: 1, text })
}

/// The lines of where a program isn't deterministic.
fn found_text(alloc: Global, names: &Names, found: &Undetermined) -> Result<Vec<u8>, Memory>
    requires { HasNames names.now found.now }
    ensures { IfOk result (λ text. text.items ≡ found_text names.now found.now) }
{
    let mut text = Vec::new(alloc);
    text.extend_from_slice(b"NONDETERMINISTIC\n")?;
    push_line(&mut text, b"STATE ", &found.state)?;
    text.extend_from_slice(b"TRACE")?;
    push_trace(&mut text, names, found.trace.items())?;
    text.extend_from_slice(b"\n")?;
    push_choice(&mut text, names, &found.choice)?;
    Ok(text)
}

// Adds a line of a word and a state.
fn push_line(text: &mut Vec<u8>, word: &[u8], state: &State) -> Result<(), Memory>
    ensures { OnOk result (text.new.items ≡ text.old.items ++ word.now ++ state_text state.now ++ codes "\n") }
{
    text.extend_from_slice(word)?;
    push_state(text, state.items())?;
    text.extend_from_slice(b"\n")?;
    Ok(())
}

// Adds events, each with a space in front.
fn push_trace(text: &mut Vec<u8>, names: &Names, events: &[Event]) -> Result<(), Memory>
    requires { AreNamed names.now events.now }
    ensures { OnOk result (text.new.items ≡ text.old.items ++ flat_map (λ e. 32 ∷ event_text names.now e) events.now) }
{
    for event in events {
        text.extend_from_slice(b" ")?;
        push_event(text, names, *event)?;
    }
    Ok(())
}

/// Adds the two lines of a choice.
fn push_choice(text: &mut Vec<u8>, names: &Names, choice: &Choice) -> Result<(), Memory>
    requires { ChoiceIsNamed names.now choice.now }
    ensures { OnOk result (text.new.items ≡ text.old.items ++ choice_text names.now choice.now) }
{
    match choice {
        Choice::TwoEnds(first, second) => {
            push_line(text, b"ENDS ", first)?;
            push_line(text, b"ENDS ", second)
        }
        Choice::EndOrRefusal(state) => {
            push_line(text, b"ENDS ", state)?;
            text.extend_from_slice(b"REFUSES {}\n")?;
            Ok(())
        }
        Choice::EndOrEvent(state, event) => {
            push_line(text, b"ENDS ", state)?;
            text.extend_from_slice(b"DOES ")?;
            push_event(text, names, *event)?;
            text.extend_from_slice(b"\n")?;
            Ok(())
        }
        Choice::EventOrRefusal(event) => {
            text.extend_from_slice(b"DOES ")?;
            push_event(text, names, *event)?;
            text.extend_from_slice(b"\nREFUSES {")?;
            push_event(text, names, *event)?;
            text.extend_from_slice(b"}\n")?;
            Ok(())
        }
    }
}
