ghost use Rattle.std.specs.Prelude.{◌≡◌, IfOk, true};
ghost use Rattle.occ_run_steps.specs.Kept.{all_types_held, types_held};
ghost use Rattle.occ_run_steps.specs.Settled.{all_are_settled, all_settled as all_come_to, is_settled};
ghost use Rattle.occ_run_steps.specs.Settled.{settled as comes_to, side_by_side as at_once};
ghost use Rattle.occ_run.specs.Effects.{applied as after_effect, applied_from, at_leaf as left_at, effect as seen};
ghost use Rattle.occ_run.specs.Places.{names_at, values_at};
ghost use Rattle.occ_run.specs.View.{control as left, controls};

use crate::apply::{at_leaf, effect_on, inside, value_inside};
use crate::control::{Control, is_over};
use crate::effect::Effect;
use crate::place::Place;
use crate::settle::{begun_turn, in_channels, settled, side_by_side};
use occ_syntax::Memory;
use std::rc::Rc;

/// What a control with nothing left to settle comes to by a step with that effect. Only what the step changes is made anew and
/// settles; all else is shared.
#[cycle(moved)]
pub(crate) fn moved<'a>(
    place: &Place,
    control: &Control<'a>,
    effect: &Effect<'a>,
) -> Result<Control<'a>, Memory>
    requires rests { is_settled (left control.now) ≡ true }
    requires typed { types_held (after_effect (left control.now) (seen effect.now)) (names_at place.now) ≡ true }
    ensures { IfOk result (λ next. left next
        ≡ comes_to (names_at place.now) (values_at place.now) (after_effect (left control.now) (seen effect.now))) }
{
    let alloc = place.alloc;
    match control {
        Control::Done => Ok(Control::Done),
        Control::Ready | Control::Stuck | Control::Unbegun(_) => leaf_moved(place, effect),
        Control::Input { .. } | Control::Output { .. } => leaf_moved(place, effect),
        Control::After(body, rest) => {
            let body = moved(place, body, effect)?;
            if is_over(&body) {
                return begun_turn(place, *rest);
            }
            Ok(Control::After(Rc::new(alloc, body)?, *rest))
        }
        Control::Both(parts) => all_moved(place, parts, effect),
        Control::Local {
            name,
            width,
            value,
            body,
        } => {
            let value = value_inside(*value, effect);
            let inner = place.with_variable(*name, *width, value)?;
            let body = moved(&inner, body, inside(effect))?;
            if is_over(&body) {
                return Ok(Control::Done);
            }
            Ok(Control::Local {
                name: *name,
                width: *width,
                value,
                body: Rc::new(alloc, body)?,
            })
        }
        Control::Channels { first, more, body } => {
            let inner = place.within(*first, more)?;
            let body = moved(&inner, body, effect)?;
            in_channels(alloc, *first, Vec::from_slice(alloc, more)?, body)
        }
    }
}

/// What a process with steps comes to by one of them.
fn leaf_moved<'a>(place: &Place, effect: &Effect<'a>) -> Result<Control<'a>, Memory>
    requires { types_held (left_at (seen effect.now)) (names_at place.now) ≡ true }
    ensures { IfOk result (λ next. left next ≡ comes_to (names_at place.now) (values_at place.now) (left_at (seen effect.now))) }
{
    let control = at_leaf(place.alloc, effect)?;
    settled(place, &control)
}

/// What controls at once come to by a step.
#[cycle(moved)]
fn all_moved<'a>(
    place: &Place,
    parts: &[Rc<Control<'a>>],
    effect: &Effect<'a>,
) -> Result<Control<'a>, Memory>
    requires rests { all_are_settled (controls parts.now) ≡ true }
    requires typed { all_types_held (applied_from 0 (controls parts.now) (seen effect.now)) (names_at place.now) ≡ true }
    ensures { IfOk result (λ next. left next
        ≡ at_once (all_come_to (names_at place.now) (values_at place.now) (applied_from 0 (controls parts.now) (seen effect.now)))) }
{
    let mut all = Vec::new(place.alloc);
    let mut index: usize = 0;
    let mut rest = parts;
    while let [part, later @ ..] = rest {
        let next = match effect_on(effect, index) {
            None => part.clone()?,
            Some(effect) => Rc::new(place.alloc, moved(place, part, effect)?)?,
        };
        all.push(next)?;
        index += 1;
        rest = later;
    }
    Ok(side_by_side(all))
}
