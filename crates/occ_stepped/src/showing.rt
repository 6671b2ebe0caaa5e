//! What is shown where a schedule leads.

ghost use Rattle.std.specs.Prelude.{◌≡◌, ◌<◌, IfOk, length, true};
ghost use Rattle.std.specs.List.{All};
ghost use Rattle.occ_place.specs.Steps.{MoveIsNamed};
ghost use Rattle.occ_run.specs.Configurations.{moves_of};
ghost use Rattle.occ_run.specs.Machines.{configuration};
ghost use Rattle.occ_run.specs.occ_behaviour.States.{is_state};
ghost use Rattle.occ_syntax.specs.occ_base.declared.names.Name.{Name as TheName};
ghost use Rattle.occ_syntax.specs.declared.scope.Kind.{Kind as TheKind};
ghost use Rattle.occ_stepped.specs.Shown.{IsAround, Shows};

use crate::heading::push_heading;
use occ_place::{Listing, Places, list_steps, push_stands, stands, told_at};
use occ_run::{Machine, Move, Point};
use occ_run_schedule::{Accepted, Schedule};
use occ_syntax::{Memory, Names};
use std::alloc::Global;

/// What the command shows of a machine to which a schedule leads an accepted program: where it is, the table of its steps, and how each
/// part of the program of that text stands.
pub fn show(
    alloc: Global,
    names: &Names,
    program: (&Accepted, &[u8]),
    schedule: &Schedule,
    machine: &Machine,
) -> Result<Vec<u8>, Memory>
    requires short { length program.1.now < 4294967295 }
    requires state { is_state program.0.now.program.params schedule.now.state ≡ true }
    requires named { All (λ (entry : TheName × TheKind). entry.0.0 < length names.now) machine.now.point.place.scope.items }
    ensures { IfOk result (λ text. Shows names.now (moves_of (configuration machine.now)) text.items) }
{
    let moves = machine.moves()?;
    match Places::of(alloc, program.1, program.0.program())? {
        Some(places) => show_places(names, &places, schedule, machine, &moves),
        None => {
            let none = Vec::new(alloc);
            let listing = list_steps(alloc, names, &moves, None, &none)?;
            joined(Vec::new(alloc), listing, b"")
        }
    }
}

/// The same by the places of the program.
fn show_places(
    names: &Names,
    places: &Places,
    schedule: &Schedule,
    machine: &Machine,
    moves: &[Move],
) -> Result<Vec<u8>, Memory>
    requires state { is_state places.now.marked.accepted.program.params schedule.now.state ≡ true }
    requires named { All (MoveIsNamed names.now) moves.now }
    ensures { IfOk result (λ text. Shows names.now moves.now text.items) }
{
    let alloc = places.alloc();
    let point = point_behind(places, schedule)?;
    let told = told_at(places, &point)?;
    let mut before = Vec::new(alloc);
    let begun = (schedule.state.items(), schedule.steps.items().len());
    push_heading(&mut before, places, begun, machine, moves)?;
    let listing = list_steps(alloc, names, moves, Some(places), &told)?;
    let parts = stands(places, &point)?;
    let mut after = Vec::new(alloc);
    if !parts.is_empty() {
        after.push(b'\n')?;
        push_stands(places, &mut after, &parts)?;
    }
    joined(before, listing, &after)
}

/// A text with the rows of a table behind another text and the heads of the table.
fn joined(before: Vec<u8>, listing: Listing, after: &[u8]) -> Result<Vec<u8>, Memory>
    ensures { IfOk result (λ text. IsAround listing.rows.items text.items) }
{
    let mut text = headed(before, &listing)?;
    text.extend_from_slice(&listing.rows)?;
    text.extend_from_slice(after)?;
    Ok(text)
}

/// A text with the heads of a table behind it, where the table has rows.
fn headed(before: Vec<u8>, listing: &Listing) -> Result<Vec<u8>, Memory> {
    let mut text = before;
    if !listing.rows.is_empty() {
        text.push(b'\n')?;
        text.extend_from_slice(&listing.heads)?;
        text.push(b'\n')?;
    }
    Ok(text)
}

/// Where the marked program is behind a schedule. A step that isn't there is passed over.
fn point_behind<'p>(places: &'p Places, schedule: &Schedule) -> Result<Point<'p>, Memory>
    requires { is_state places.now.marked.accepted.program.params schedule.now.state ≡ true }
{
    let mut point = places.point(&schedule.state)?;
    for number in schedule.steps.items() {
        let offers = point.offers()?;
        if let Some(offer) = offers.get(*number as usize) {
            point = point.after(offer)?;
        }
    }
    Ok(point)
}
