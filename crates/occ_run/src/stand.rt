ghost use Rattle.std.specs.Prelude.{◌≡◌, ◌++◌, ◌≤◌, IfOk, OnOk, true};
ghost use Rattle.std.specs.List.{list_any};
ghost use Rattle.occ_run_steps.specs.Step.{not_seen};
ghost use Rattle.occ_syntax.specs.Scopes.{values};
ghost use Rattle.occ_syntax.specs.Types.{is_width, width_of_kind};
ghost use Rattle.occ_run.specs.Machines.{configuration};
ghost use Rattle.occ_run.specs.Places.{values_at};
ghost use Rattle.occ_run.specs.Runs.{unheard};
ghost use Rattle.occ_run.specs.MeetingRuns.{has, spelled};
ghost use Rattle.occ_run.specs.Stands.{IsStand, events_below, interface, kind_events, state_of as state_in};

use crate::Run;
use crate::answer::Stand;
use crate::control::is_over;
use crate::machine::Machine;
use crate::offers::size_of;
use crate::place::Place;
use crate::stepping::moves_in;
use occ_syntax::{Dir, Event, Events, Kind, Memory, Name, State};
use std::alloc::Global;

impl<'a> Machine<'a> {
    /// How the machine stands.
    pub fn stand(&self) -> Result<Stand, Memory>
        ensures { IfOk result (IsStand (configuration self.now)) }
    {
        let place = &self.point.place;
        if is_over(&self.point.control) {
            return Ok(Stand::Ended(state_of(place)?));
        }
        let runs = self.point.runs()?;
        let steps = moves_in(place.alloc, &runs)?.len() as u64;
        if steps == 0 {
            return Ok(Stand::Stuck(refused(place, &runs)?));
        }
        if has_unseen(&runs) {
            return Ok(Stand::Moving { steps });
        }
        let refused = refused(place, &runs)?;
        Ok(Stand::Stable { steps, refused })
    }
}

/// The variables of an interface, in order, with their values.
fn state_of(place: &Place) -> Result<State, Memory>
    ensures { IfOk result (λ state. state ≡ state_in place.now.scope.items (values_at place.now)) }
{
    let mut state = State::new(place.alloc);
    let mut rest = place.scope.as_slice();
    while let [(name, kind), later @ ..] = rest {
        if let Kind::Var(_) = kind {
            state.push((*name, held(&place.state, *name)))?;
        }
        rest = later;
    }
    Ok(state)
}

/// The value of a variable in a list of values; 0 where it isn't there.
pub fn held(state: &[(Name, u8)], name: Name) -> u8
    ensures { result ≡ values state.now name.0 }
{
    let mut rest = state;
    while let [(variable, value), later @ ..] = rest {
        if name == *variable {
            return *value;
        }
        rest = later;
    }
    0
}

/// Whether one of the steps is unseen.
fn has_unseen(runs: &[Run]) -> bool
    ensures { result ≡ list_any not_seen (spelled runs.now) }
{
    let mut rest = runs;
    while let [run, later @ ..] = rest {
        if run.event().is_none() {
            return true;
        }
        rest = later;
    }
    false
}

/// Whether one of the steps is that event.
fn has_event(runs: &[Run], event: Event) -> bool
    ensures { result ≡ list_any (has event) runs.now }
{
    let mut rest = runs;
    while let [run, later @ ..] = rest {
        if run.has(event) {
            return true;
        }
        rest = later;
    }
    false
}

/// The events of the interface that no step has.
fn refused(place: &Place, runs: &[Run]) -> Result<Events, Memory>
    ensures { IfOk result (λ events. events ≡ unheard runs.now (interface place.now.scope.items)) }
{
    let mut events = Events::new(place.alloc);
    let mut rest = place.scope.as_slice();
    while let [(name, kind), later @ ..] = rest {
        add_refused(&mut events, runs, *name, *kind)?;
        rest = later;
    }
    Ok(events)
}

/// Adds the events of a parameter that no step has.
fn add_refused(events: &mut Events, runs: &[Run], name: Name, kind: Kind) -> Result<(), Memory>
    requires { is_width (width_of_kind kind) ≡ true }
    ensures { OnOk result (events.new ≡ events.old ++ unheard runs.now (kind_events name kind)) }
{
    match kind {
        Kind::Var(_) => Ok(()),
        Kind::Chan(width, None) => {
            add_end(events, runs, (name, Dir::Input), size_of(width))?;
            add_end(events, runs, (name, Dir::Output), size_of(width))
        }
        Kind::Chan(width, Some(dir)) => add_end(events, runs, (name, dir), size_of(width)),
    }
}

/// Adds the events at one end of a channel that no step has.
fn add_end(events: &mut Events, runs: &[Run], end: (Name, Dir), size: u16) -> Result<(), Memory>
    requires { size ≤ 256 }
    ensures { OnOk result (events.new ≡ events.old ++ unheard runs.now (events_below end size)) }
{
    for number in 0..size {
        let event = Event {
            chan: end.0,
            dir: end.1,
            value: number as u8,
        };
        if !has_event(runs, event) {
            events.push(event)?;
        }
    }
    Ok(())
}
