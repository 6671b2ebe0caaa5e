ghost use Rattle.std.specs.Prelude.{◌≡◌, ◌<◌, ◌++◌, ◌∷◌, length, decimal, map, OnOk, IfOk, All, List};
ghost use Rattle.std.specs.List.{flat_map};
ghost use Rattle.occ_behaviour.specs.Texts.{state_text, event_text, set_text, last_text, spaced, text_of_behaviour, text_of_verdict};
ghost use Rattle.occ_behaviour.specs.Members.{AreNamed, LastIsNamed, IsNamed, VerdictIsNamed};

use crate::{Behaviour, Last, Side, Verdict};
use occ_syntax::{Dir, Event, Memory, Name, Names, push_number};
use std::alloc::Global;

/// The lines of a verdict: `SAME`, or `DIFFER` with a behaviour and the program that it belongs to.
pub fn verdict_text(alloc: Global, names: &Names, verdict: &Verdict) -> Result<Vec<u8>, Memory>
    requires { VerdictIsNamed names.now verdict.now }
    ensures { IfOk result (λ text. text.items ≡ text_of_verdict names.now verdict.now) }
{
    let mut text = Vec::new(alloc);
    match verdict {
        Verdict::Same => text.extend_from_slice(b"SAME\n")?,
        Verdict::Differ { behaviour, only } => {
            text.extend_from_slice(b"DIFFER\n")?;
            push_behaviour(&mut text, names, behaviour)?;
            match only {
                Side::First => text.extend_from_slice(b"ONLY FIRST\n")?,
                Side::Second => text.extend_from_slice(b"ONLY SECOND\n")?,
            }
        }
    }
    Ok(text)
}

/// The three lines of a behaviour: `STATE`, `TRACE`, and `REFUSES` or `ENDS`.
pub fn behaviour_text(
    alloc: Global,
    names: &Names,
    behaviour: &Behaviour,
) -> Result<Vec<u8>, Memory>
    requires { IsNamed names.now behaviour.now }
    ensures { IfOk result (λ text. text.items ≡ text_of_behaviour names.now behaviour.now) }
{
    let mut text = Vec::new(alloc);
    push_behaviour(&mut text, names, behaviour)?;
    Ok(text)
}

fn push_behaviour(text: &mut Vec<u8>, names: &Names, behaviour: &Behaviour) -> Result<(), Memory>
    requires { IsNamed names.now behaviour.now }
    ensures { OnOk result (text.new.items ≡ text.old.items ++ text_of_behaviour names.now behaviour.now) }
{
    text.extend_from_slice(b"STATE ")?;
    push_state(text, behaviour.state.items())?;
    text.extend_from_slice(b"\nTRACE")?;
    push_spaced_events(text, names, behaviour.trace.items())?;
    text.extend_from_slice(b"\n")?;
    push_last(text, names, &behaviour.last)
}

fn push_last(text: &mut Vec<u8>, names: &Names, last: &Last) -> Result<(), Memory>
    requires { LastIsNamed names.now last.now }
    ensures { OnOk result (text.new.items ≡ text.old.items ++ last_text names.now last.now) }
{
    match last {
        Last::Refuses(events) => {
            text.extend_from_slice(b"REFUSES ")?;
            push_set(text, names, events.items())?;
        }
        Last::Ends(state) => {
            text.extend_from_slice(b"ENDS ")?;
            push_state(text, state.items())?;
        }
    }
    text.extend_from_slice(b"\n")?;
    Ok(())
}

/// Adds a state: its values in brackets, with one space between.
pub fn push_state(text: &mut Vec<u8>, state: &[(Name, u8)]) -> Result<(), Memory>
    ensures { OnOk result (text.new.items ≡ text.old.items ++ state_text state.now) }
{
    text.extend_from_slice(b"[")?;
    push_values(text, state)?;
    text.extend_from_slice(b"]")?;
    Ok(())
}

fn push_values(text: &mut Vec<u8>, state: &[(Name, u8)]) -> Result<(), Memory>
    ensures { OnOk result (text.new.items ≡ text.old.items ++ spaced (λ v. decimal v.1) state.now) }
{
    match state {
        [] => Ok(()),
        [(_, first), rest @ ..] => {
            push_number(text, u64::from(*first))?;
            push_spaced_values(text, rest)
        }
    }
}

fn push_spaced_values(text: &mut Vec<u8>, state: &[(Name, u8)]) -> Result<(), Memory>
    ensures { OnOk result (text.new.items ≡ text.old.items ++ flat_map (λ v. 32 ∷ decimal v.1) state.now) }
{
    for (_, value) in state {
        text.push(b' ')?;
        push_number(text, u64::from(*value))?;
    }
    Ok(())
}

/// Adds a set of events in braces, with one space between.
pub fn push_set(text: &mut Vec<u8>, names: &Names, events: &[Event]) -> Result<(), Memory>
    requires { AreNamed names.now events.now }
    ensures { OnOk result (text.new.items ≡ text.old.items ++ set_text names.now events.now) }
{
    text.extend_from_slice(b"{")?;
    push_events(text, names, events)?;
    text.extend_from_slice(b"}")?;
    Ok(())
}

fn push_events(text: &mut Vec<u8>, names: &Names, events: &[Event]) -> Result<(), Memory>
    requires { AreNamed names.now events.now }
    ensures { OnOk result (text.new.items ≡ text.old.items ++ spaced (event_text names.now) events.now) }
{
    match events {
        [] => Ok(()),
        [first, rest @ ..] => {
            push_event(text, names, *first)?;
            push_spaced_events(text, names, rest)
        }
    }
}

fn push_spaced_events(text: &mut Vec<u8>, names: &Names, events: &[Event]) -> Result<(), Memory>
    requires { AreNamed names.now events.now }
    ensures { OnOk result (text.new.items ≡ text.old.items ++ flat_map (λ e. 32 ∷ event_text names.now e) events.now) }
{
    for event in events {
        text.extend_from_slice(b" ")?;
        push_event(text, names, *event)?;
    }
    Ok(())
}

/// Adds an event: the channel's name, its mark and the value.
pub fn push_event(text: &mut Vec<u8>, names: &Names, event: Event) -> Result<(), Memory>
    requires { event.chan.0 < length names.now }
    ensures { OnOk result (text.new.items ≡ text.old.items ++ event_text names.now event) }
{
    text.extend_from_slice(names.text(event.chan))?;
    match event.dir {
        Dir::Input => text.extend_from_slice(b"?")?,
        Dir::Output => text.extend_from_slice(b"!")?,
    }
    push_number(text, u64::from(event.value))
}
