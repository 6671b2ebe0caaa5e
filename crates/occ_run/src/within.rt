ghost use Rattle.std.specs.Prelude.{◌≡◌, ◌∷◌, IfOk, map};
ghost use Rattle.occ_run_steps.specs.Step.{changes_but as changes_off, off};
ghost use Rattle.occ_run.specs.Effects.{changes_of, in_body, off_all, off_channels as those_off, offered, seen_offers};
ghost use Rattle.occ_run.specs.Effects.{value_after as value_behind};

use crate::effect::{Effect, Offer};
use occ_syntax::{Event, Memory, Name, Width};
use std::alloc::Global;
use std::rc::Rc;

/// The steps in the body of a VAR as the outside sees them: the variable, which has that value, keeps it to itself.
pub fn of_variable<'a>(
    alloc: Global,
    name: Name,
    value: u8,
    inside: &[Offer<'a>],
) -> Result<Vec<Offer<'a>>, Memory>
    ensures { IfOk result (λ offers. seen_offers offers.items ≡ map (in_body name.0 value) (seen_offers inside.now)) }
{
    let mut offers = Vec::new(alloc);
    let mut rest = inside;
    while let [offer, later @ ..] = rest {
        offers.push(outside(alloc, name, value, offer)?)?;
        rest = later;
    }
    Ok(offers)
}

/// A step in the body of a VAR as the outside sees it.
pub(crate) fn outside<'a>(
    alloc: Global,
    name: Name,
    value: u8,
    inside: &Offer<'a>,
) -> Result<Offer<'a>, Memory>
    ensures { IfOk result (λ offer. offered offer ≡ in_body name.0 value (offered inside.now)) }
{
    let value = value_after(&inside.changes, name, value);
    let effect = Effect::Within(value, inside.effect.clone()?);
    Ok(Offer {
        event: inside.event,
        changes: changes_but(alloc, name, &inside.changes)?,
        effect: Rc::new(alloc, effect)?,
    })
}

/// The value of a variable after changes, before which it was old.
fn value_after(changes: &[(Name, u8)], name: Name, old: u8) -> u8
    ensures { result ≡ value_behind (changes_of changes.now) name.0 old }
{
    let mut rest = changes;
    while let [(changed, value), later @ ..] = rest {
        if name == *changed {
            return *value;
        }
        rest = later;
    }
    old
}

/// The changes of other variables.
fn changes_but(alloc: Global, name: Name, changes: &[(Name, u8)]) -> Result<Vec<(Name, u8)>, Memory>
    ensures { IfOk result (λ others. changes_of others.items ≡ changes_off name.0 (changes_of changes.now)) }
{
    let mut others = Vec::new(alloc);
    let mut rest = changes;
    while let [(changed, value), later @ ..] = rest {
        if *changed != name {
            others.push((*changed, *value))?;
        }
        rest = later;
    }
    Ok(others)
}

/// The steps that aren't on one of the channels.
pub fn off_channels<'a>(
    alloc: Global,
    first: (Name, Width),
    more: &[(Name, Width)],
    inside: &[Offer<'a>],
) -> Result<Vec<Offer<'a>>, Memory>
    ensures { IfOk result (λ offers. seen_offers offers.items ≡ those_off (first ∷ more.now) (seen_offers inside.now)) }
{
    let mut offers = Vec::new(alloc);
    let mut rest = inside;
    while let [offer, later @ ..] = rest {
        if is_off(first, offer.event) && are_off(more, offer.event) {
            offers.push(offer.copy(alloc)?)?;
        }
        rest = later;
    }
    Ok(offers)
}

/// Whether what is seen isn't on that channel.
pub(crate) fn is_off(channel: (Name, Width), event: Option<Event>) -> bool
    ensures { result ≡ off channel.0.0 event }
{
    match event {
        None => true,
        Some(event) => event.chan != channel.0,
    }
}

pub(crate) fn are_off(channels: &[(Name, Width)], event: Option<Event>) -> bool
    ensures { result ≡ off_all channels.now event }
{
    let mut rest = channels;
    while let [channel, later @ ..] = rest {
        if !is_off(*channel, event) {
            return false;
        }
        rest = later;
    }
    true
}
