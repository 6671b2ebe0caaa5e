ghost use Rattle.std.specs.Prelude.{◌≡◌, ◌==◌, ℕ, IfOk};
ghost use Rattle.occ_run.specs.Effects.{at_leaf as left_at, body_of, changes_of, effect as seen};
ghost use Rattle.occ_run.specs.Effects.{part_of, value_of, next_left};
ghost use Rattle.occ_run.specs.View.{control as left};
ghost use Rattle.occ_run_steps.specs.Step.{changed as after_changes};
ghost use Rattle.occ_syntax.specs.Scopes.{values};
ghost use Rattle.occ_syntax.specs.occ_base.declared.names.Name.{Name as TheName};
ghost use Rattle.std.specs.List.{list_any};
ghost use Rattle.occ_run.specs.Offers.{IsPartOf};

use crate::control::Control;
use crate::effect::{Effect, Next};
use occ_syntax::{Memory, Name};
use std::alloc::Global;
use std::rc::Rc;

/// What a process with steps becomes.
pub(crate) fn at_leaf<'a>(alloc: Global, effect: &Effect<'a>) -> Result<Control<'a>, Memory>
    ensures { IfOk result (λ next. left next ≡ left_at (seen effect.now)) }
{
    match effect {
        Effect::Leaf(next) => begins(alloc, *next),
        Effect::Within(_, _) | Effect::One(_, _) | Effect::Two(_, _, _, _) => Ok(Control::Done),
    }
}

fn begins<'a>(alloc: Global, next: Next<'a>) -> Result<Control<'a>, Memory>
    ensures { IfOk result (λ control. left control ≡ next_left next.entry) }
{
    match next {
        Next::Done => Ok(Control::Done),
        Next::Ready => Ok(Control::Ready),
        Next::Process(part) => Ok(Control::Unbegun(part)),
        Next::Variable {
            name,
            width,
            value,
            body,
        } => Ok(Control::Local {
            name,
            width,
            value,
            body: Rc::new(alloc, Control::Unbegun(body))?,
        }),
    }
}

/// The effect on the body of a VAR.
pub fn inside<'e, 'a>(effect: &'e Effect<'a>) -> &'e Effect<'a>
    ensures { seen result.now ≡ body_of (seen effect.now) }
{
    match effect {
        Effect::Within(_, inner) => inner,
        Effect::Leaf(_) | Effect::One(_, _) | Effect::Two(_, _, _, _) => effect,
    }
}

/// The value that the variable of a VAR has then.
pub fn value_inside(old: u8, effect: &Effect) -> u8
    ensures { result ≡ value_of old (seen effect.now) }
{
    match effect {
        Effect::Within(value, _) => *value,
        Effect::Leaf(_) | Effect::One(_, _) | Effect::Two(_, _, _, _) => old,
    }
}

/// The effect on the control of that index among controls at once; None where it doesn't change.
pub fn effect_on<'e, 'a>(effect: &'e Effect<'a>, index: usize) -> Option<&'e Effect<'a>>
    ensures { IsPartOf (part_of (seen effect.now) index) result }
{
    match effect {
        Effect::One(one, inner) => {
            if index == *one {
                return Some(inner);
            }
            None
        }
        Effect::Two(one, first, other, second) => {
            if index == *one {
                return Some(first);
            }
            if index == *other {
                return Some(second);
            }
            None
        }
        Effect::Leaf(_) | Effect::Within(_, _) => None,
    }
}

/// The state after changes, of which an earlier one counts before a later one.
pub(crate) fn changed(
    alloc: Global,
    state: &[(Name, u8)],
    changes: &[(Name, u8)],
) -> Result<Vec<(Name, u8)>, Memory>
    ensures { IfOk result (λ new. values new.items ≡ after_changes (changes_of changes.now) (values state.now)) }
{
    let mut new = Vec::from_slice(alloc, changes)?;
    let mut rest = state;
    while let [(name, value), later @ ..] = rest {
        if !is_changed(changes, *name) {
            new.push((*name, *value))?;
        }
        rest = later;
    }
    Ok(new)
}

fn is_changed(changes: &[(Name, u8)], name: Name) -> bool
    ensures { result ≡ list_any (λ (c : TheName × ℕ). c.0.0 == name.0) changes.now }
{
    let mut rest = changes;
    while let [(changed, _), later @ ..] = rest {
        if *changed == name {
            return true;
        }
        rest = later;
    }
    false
}
