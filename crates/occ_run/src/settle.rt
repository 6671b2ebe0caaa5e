ghost use Rattle.std.specs.Prelude.{◌≡◌, ◌∷◌, IfOk, true};
ghost use Rattle.occ_syntax.specs.View.{cases, tree, trees};
ghost use Rattle.occ_syntax.specs.Types.{all_types_kept, cases_kept, types_kept};
ghost use Rattle.occ_run_steps.specs.Control.{all_done};
ghost use Rattle.occ_run_steps.specs.Kept.{all_types_held, types_held};
ghost use Rattle.occ_run_steps.specs.Settled.{all_settled as all_come_to, begun as begins_as, begun_all as begin_as};
ghost use Rattle.occ_run_steps.specs.Settled.{begun_choice as choice_begins_as, begun_turn as turn_begins_as};
ghost use Rattle.occ_run_steps.specs.Settled.{settled as comes_to, side_by_side as at_once};
ghost use Rattle.occ_run.specs.Places.{names_at, values_at};
ghost use Rattle.occ_run.specs.View.{connecting, control as left, controls, round};

use crate::control::{Control, is_over};
use crate::place::Place;
use occ_syntax::{Expr, Memory, Name, Proc, Width};
use std::alloc::Global;
use std::rc::Rc;

/// What a process comes to as it begins.
#[tactic(auto, unfolding(crate::specs::tree))]
#[cycle(begun)]
pub(crate) fn begun<'a>(place: &Place, part: &'a Proc) -> Result<Control<'a>, Memory>
    requires { types_kept (tree part.now) (names_at place.now) ≡ true }
    ensures { IfOk result (λ control. left control ≡ begins_as (names_at place.now) (values_at place.now) (tree part.now)) }
{
    match part {
        Proc::Skip => Ok(Control::Done),
        Proc::Stop | Proc::Assign { .. } | Proc::Alt(_) | Proc::Var { .. } => {
            Ok(Control::Unbegun(part))
        }
        Proc::Input { chan, var } => Ok(Control::Input {
            chan: *chan,
            var: *var,
        }),
        Proc::Output { chan, value } => Ok(Control::Output { chan: *chan, value }),
        Proc::Seq(parts) => begun_turn(place, parts.items()),
        Proc::Par(parts) => begun_all(place, parts.items()),
        Proc::If(choices) => begun_choice(place, choices.items()),
        Proc::Chan { name, width, body } => {
            let (more, rest) = channels_in(place.alloc, body)?;
            let inner = place.within((*name, *width), &more)?;
            let control = begun(&inner, rest)?;
            in_channels(place.alloc, (*name, *width), more, control)
        }
    }
}

/// The CHANs in a row that a process begins with, the first outermost, and what they govern.
fn channels_in<'a>(alloc: Global, part: &'a Proc) -> Result<(Vec<(Name, Width)>, &'a Proc), Memory>
    ensures { IfOk result (λ found. tree part.now ≡ connecting found.0.items (tree found.1.now)) }
{
    let mut channels = Vec::new(alloc);
    let mut rest = part;
    while let Proc::Chan { name, width, body } = rest {
        channels.push((*name, *width))?;
        rest = body;
    }
    Ok((channels, rest))
}

/// CHANs in a row round a control, which are over with it.
pub(crate) fn in_channels<'a>(
    alloc: Global,
    first: (Name, Width),
    more: Vec<(Name, Width)>,
    body: Control<'a>,
) -> Result<Control<'a>, Memory>
    ensures { IfOk result (λ control. left control ≡ round (first ∷ more.items) (left body.entry)) }
{
    if is_over(&body) {
        return Ok(Control::Done);
    }
    let body = Rc::new(alloc, body)?;
    Ok(Control::Channels { first, more, body })
}

/// What processes in turn come to.
#[cycle(begun)]
pub(crate) fn begun_turn<'a>(place: &Place, parts: &'a [Proc]) -> Result<Control<'a>, Memory>
    requires { all_types_kept (trees parts.now) (names_at place.now) ≡ true }
    ensures { IfOk result (λ control. left control ≡ turn_begins_as (names_at place.now) (values_at place.now) (trees parts.now)) }
{
    let mut rest = parts;
    while let [first, later @ ..] = rest {
        let control = begun(place, first)?;
        if !is_over(&control) {
            return Ok(Control::After(Rc::new(place.alloc, control)?, later));
        }
        rest = later;
    }
    Ok(Control::Done)
}

/// What processes at once come to.
#[cycle(begun)]
fn begun_all<'a>(place: &Place, parts: &'a [Proc]) -> Result<Control<'a>, Memory>
    requires { all_types_kept (trees parts.now) (names_at place.now) ≡ true }
    ensures { IfOk result (λ control. left control ≡ at_once (begin_as (names_at place.now) (values_at place.now) (trees parts.now))) }
{
    let mut controls = Vec::new(place.alloc);
    let mut rest = parts;
    while let [part, later @ ..] = rest {
        controls.push(Rc::new(place.alloc, begun(place, part)?)?)?;
        rest = later;
    }
    Ok(side_by_side(controls))
}

/// Controls at once, which are over with the last of them.
pub(crate) fn side_by_side<'a>(parts: Vec<Rc<Control<'a>>>) -> Control<'a>
    ensures { left result ≡ at_once (controls parts.entry.items) }
{
    if are_over(&parts) {
        Control::Done
    } else {
        Control::Both(parts)
    }
}

fn are_over(parts: &[Rc<Control>]) -> bool
    ensures { result ≡ all_done (controls parts.now) }
{
    let mut rest = parts;
    while let [first, later @ ..] = rest {
        if !is_over(first) {
            return false;
        }
        rest = later;
    }
    true
}

/// What the first choice comes to whose condition is true; without one it is stuck.
#[cycle(begun)]
fn begun_choice<'a>(place: &Place, choices: &'a [(Expr, Proc)]) -> Result<Control<'a>, Memory>
    requires { cases_kept (cases choices.now) (names_at place.now) ≡ true }
    ensures { IfOk result (λ control. left control ≡ choice_begins_as (names_at place.now) (values_at place.now) (cases choices.now)) }
{
    let mut rest = choices;
    while let [(condition, part), later @ ..] = rest {
        if place.value(condition) == 1 {
            return begun(place, part);
        }
        rest = later;
    }
    Ok(Control::Stuck)
}

/// What a control comes to without a step.
#[cycle(settled)]
pub(crate) fn settled<'a>(place: &Place, control: &Control<'a>) -> Result<Control<'a>, Memory>
    requires { types_held (left control.now) (names_at place.now) ≡ true }
    ensures { IfOk result (λ next. left next ≡ comes_to (names_at place.now) (values_at place.now) (left control.now)) }
{
    let alloc = place.alloc;
    match control {
        Control::Done | Control::Ready => Ok(Control::Done),
        Control::Stuck => Ok(Control::Stuck),
        Control::Unbegun(part) => begun(place, *part),
        Control::Input { chan, var } => Ok(Control::Input {
            chan: *chan,
            var: *var,
        }),
        Control::Output { chan, value } => Ok(Control::Output {
            chan: *chan,
            value: *value,
        }),
        Control::After(body, rest) => {
            let body = settled(place, body)?;
            if is_over(&body) {
                return begun_turn(place, *rest);
            }
            Ok(Control::After(Rc::new(alloc, body)?, *rest))
        }
        Control::Both(parts) => all_settled(place, parts),
        Control::Local {
            name,
            width,
            value,
            body,
        } => {
            let inner = place.with_variable(*name, *width, *value)?;
            let body = settled(&inner, body)?;
            if is_over(&body) {
                return Ok(Control::Done);
            }
            Ok(Control::Local {
                name: *name,
                width: *width,
                value: *value,
                body: Rc::new(alloc, body)?,
            })
        }
        Control::Channels { first, more, body } => {
            let inner = place.within(*first, more)?;
            let body = settled(&inner, body)?;
            in_channels(alloc, *first, Vec::from_slice(alloc, more)?, body)
        }
    }
}

#[cycle(settled)]
fn all_settled<'a>(place: &Place, parts: &[Rc<Control<'a>>]) -> Result<Control<'a>, Memory>
    requires { all_types_held (controls parts.now) (names_at place.now) ≡ true }
    ensures { IfOk result (λ control. left control
        ≡ at_once (all_come_to (names_at place.now) (values_at place.now) (controls parts.now))) }
{
    let mut all = Vec::new(place.alloc);
    let mut rest = parts;
    while let [part, later @ ..] = rest {
        all.push(Rc::new(place.alloc, settled(place, part)?)?)?;
        rest = later;
    }
    Ok(side_by_side(all))
}
