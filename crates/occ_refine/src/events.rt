ghost use Rattle.std.specs.Prelude.{◌≡◌, ◌||◌, ◌≤◌, ◌^◌, true, OnOk, IfOk};
ghost use Rattle.occ_syntax.specs.occ_base.declared.event.Event.{Event};
ghost use Rattle.occ_syntax.specs.occ_base.Width.{bits_of};
ghost use Rattle.occ_syntax.specs.Types.{scope_kept};
ghost use Rattle.occ_syntax.specs.Scopes.{environment, in_interface};
ghost use Rattle.occ_norm.specs.occ_accept.Order.{strict};
ghost use Rattle.occ_norm.specs.occ_accept.Accept.{in_set};
ghost use Rattle.occ_norm.specs.occ_compare.Orders.{print_cmp};
ghost use Rattle.occ_refine.specs.Interfaces.{in_values, in_marked, in_params};

use occ_norm::{in_order, listed};
use occ_syntax::{Dir, Event, Events, Kind, Memory, Name};
use std::alloc::Global;

// Adds the events of a channel in one direction, with values below 2 to the number of bits.
fn add_values(events: &mut Vec<Event>, chan: Name, dir: Dir, bits: u8) -> Result<(), Memory>
    requires { bits ≤ 8 }
    ensures { OnOk result ((e : Event) → in_set events.new.items e ≡ (in_set events.old.items e || in_values chan dir (2 ^ bits) e)) }
{
    let limit = 1u16 << bits;
    for value in 0..limit {
        events.push(Event {
            chan,
            dir,
            value: value as u8,
        })?;
    }
    Ok(())
}

// Adds the events of a channel in the directions that its mark allows.
fn add_marked(
    events: &mut Vec<Event>,
    chan: Name,
    mark: Option<Dir>,
    bits: u8,
) -> Result<(), Memory>
    requires { bits ≤ 8 }
    ensures { OnOk result ((e : Event) → in_set events.new.items e ≡ (in_set events.old.items e || in_marked chan mark (2 ^ bits) e)) }
{
    match mark {
        Some(dir) => add_values(events, chan, dir, bits),
        None => {
            add_values(events, chan, Dir::Input, bits)?;
            add_values(events, chan, Dir::Output, bits)
        }
    }
}

// Adds the events of all channels among some parameters.
fn add_params(events: &mut Vec<Event>, params: &[(Name, Kind)]) -> Result<(), Memory>
    requires { scope_kept params.now ≡ true }
    ensures { OnOk result ((e : Event) → in_set events.new.items e ≡ (in_set events.old.items e || in_params params.now e)) }
{
    match params {
        [] => Ok(()),
        [(name, kind), rest @ ..] => {
            if let Kind::Chan(width, mark) = kind {
                add_marked(events, *name, *mark, width.bits())?;
            }
            add_params(events, rest)
        }
    }
}

/// All events of an interface, in the order of printing.
pub fn all_events(alloc: Global, params: &[(Name, Kind)]) -> Result<Events, Memory>
    requires { scope_kept params.now ≡ true }
    ensures increasing { IfOk result (λ events. strict (print_cmp params.now) events ≡ true) }
    ensures members { IfOk result (λ events. (e : Event) → in_set events e ≡ in_interface (environment params.now) e) }
{
    let mut events = Vec::new(alloc);
    add_params(&mut events, params)?;
    let events = in_order(params, events);
    listed(alloc, events.as_slice())
}
