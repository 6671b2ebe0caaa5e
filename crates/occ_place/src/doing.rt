use crate::places::Places;
use crate::walking::NOWHERE;
use occ_run::{Control, Effect, Next, Offer, Point, effect_on, held, inside, value_inside};
use occ_syntax::{Guard, Memory, Name, Proc, Wait, Width};
use std::rc::Rc;

/// What is done in a step by one process.
#[derive(Clone, Copy, Debug, PartialEq, Eq)]
pub enum Deed {
    /// A declared variable gets its first value.
    Begin(Name),
    Assign,
    /// A guard `b & SKIP` is taken.
    Choose,
    /// An input from a channel into a variable.
    Input(Name, Name),
    /// An output to a channel.
    Output(Name),
}

/// What a process does in a step.
#[derive(Clone, Copy, Debug, PartialEq, Eq)]
pub struct Act {
    /// The process, by its number.
    pub site: usize,
    /// The guard of an ALT by which it does that, by its number in the list of guards; or `NOWHERE`.
    pub branch: usize,
    pub deed: Deed,
}

/// A step as it is told.
#[derive(Drop)]
pub struct Told {
    /// Who does it; of two the one that outputs.
    pub first: Act,
    /// Who inputs from the first, where a value passes between two parts.
    pub second: Option<Act>,
    /// The value that passes, or with which a variable begins.
    pub value: u8,
    /// The variables that are given a value, with that.
    pub changes: Vec<(Name, u8)>,
}

impl Told {
    /// Whether another step is the same with the next value.
    pub fn goes_on(&self, next: &Told) -> bool {
        let ranges = match self.first.deed {
            Deed::Begin(_) | Deed::Input(_, _) => true,
            Deed::Assign | Deed::Choose | Deed::Output(_) => false,
        };
        ranges
            && self.first == next.first
            && self.second.is_none()
            && next.second.is_none()
            && self.value.checked_add(1) == Some(next.value)
    }
}

/// A walk down a control tree, along the effect of a step.
#[derive(Drop)]
struct Descent<'p, 's, 'o> {
    places: &'p Places,
    state: &'s [(Name, u8)],
    // the new values of variables, the innermost last
    values: Vec<(Name, u8)>,
    changed: &'o [(Name, u8)],
    acts: Vec<Act>,
    changes: Vec<(Name, u8)>,
    value: u8,
}

/// A step of a point of the places, as it is told.
pub fn tell<'p>(
    places: &'p Places,
    point: &Point<'p>,
    offer: &Offer<'p>,
) -> Result<Option<Told>, Memory> {
    let mut descent = Descent {
        places,
        state: point.place().state(),
        values: Vec::new(places.alloc),
        changed: &offer.changes,
        acts: Vec::new(places.alloc),
        changes: Vec::new(places.alloc),
        value: 0,
    };
    if let Some(event) = offer.event {
        descent.value = event.value;
    }
    descent.control(point.control(), &offer.effect, NOWHERE)?;
    let Descent {
        acts,
        changes,
        value,
        ..
    } = descent;
    Ok(joined(&acts, changes, value))
}

/// The last value of a variable in a list.
fn last_of(values: &[(Name, u8)], name: Name) -> Option<u8> {
    let mut found = None;
    for (other, value) in values {
        if *other == name {
            found = Some(*value);
        }
    }
    found
}

/// One act, or two of which the output is first.
fn joined(acts: &[Act], changes: Vec<(Name, u8)>, value: u8) -> Option<Told> {
    let (first, second) = match acts {
        [one] => (*one, None),
        [one, other] => match one.deed {
            Deed::Output(_) => (*one, Some(*other)),
            _ => (*other, Some(*one)),
        },
        _ => return None,
    };
    Some(Told {
        first,
        second,
        value,
        changes,
    })
}

/// The innermost process that channels in a row mark; `here` where none does.
pub(crate) fn mark_in(
    places: &Places,
    first: (Name, Width),
    more: &[(Name, Width)],
    here: usize,
) -> usize {
    let mut found = match places.marked_by(first.0) {
        Some(number) => number,
        None => here,
    };
    for (name, _) in more {
        if let Some(number) = places.marked_by(*name) {
            found = number;
        }
    }
    found
}

impl<'p, 's, 'o> Descent<'p, 's, 'o> {
    #[cycle(descend)]
    fn control(
        &mut self,
        control: &Control<'p>,
        effect: &Effect<'p>,
        here: usize,
    ) -> Result<(), Memory> {
        match control {
            Control::Done | Control::Ready | Control::Stuck => Ok(()),
            Control::Unbegun(part) => self.unbegun(*part, effect, here),
            Control::Input { chan, var } => {
                self.gets(*var)?;
                self.act(here, NOWHERE, Deed::Input(*chan, *var))
            }
            Control::Output { chan, .. } => self.act(here, NOWHERE, Deed::Output(*chan)),
            Control::After(body, _) => self.control(body, effect, here),
            Control::Both(parts) => self.parts(parts, effect, here),
            Control::Local {
                name,
                value,
                body,
                ..
            } => {
                self.values.push((*name, value_inside(*value, effect)))?;
                self.control(body, inside(effect), here)?;
                let _outer = self.values.pop();
                Ok(())
            }
            Control::Channels { first, more, body } => {
                self.control(body, effect, mark_in(self.places, *first, more, here))
            }
        }
    }

    /// Goes down those of controls at once that change.
    #[cycle(descend)]
    fn parts(
        &mut self,
        parts: &[Rc<Control<'p>>],
        effect: &Effect<'p>,
        here: usize,
    ) -> Result<(), Memory> {
        let mut index: usize = 0;
        let mut rest = parts;
        while let [part, later @ ..] = rest {
            if let Some(effect) = effect_on(effect, index) {
                self.control(part, effect, here)?;
            }
            index = index.saturating_add(1);
            rest = later;
        }
        Ok(())
    }

    fn act(&mut self, site: usize, branch: usize, deed: Deed) -> Result<(), Memory> {
        self.acts.push(Act { site, branch, deed })?;
        Ok(())
    }

    /// The new value of a variable.
    fn now(&self, name: Name) -> u8 {
        if let Some(value) = last_of(&self.values, name) {
            return value;
        }
        match last_of(self.changed, name) {
            Some(value) => value,
            None => held(self.state, name),
        }
    }

    fn changes(&mut self, name: Name) -> Result<(), Memory> {
        let value = self.now(name);
        self.changes.push((name, value))?;
        Ok(())
    }

    fn gets(&mut self, name: Name) -> Result<(), Memory> {
        self.value = self.now(name);
        self.changes(name)
    }

    fn unbegun(&mut self, part: &Proc, effect: &Effect<'p>, here: usize) -> Result<(), Memory> {
        match part {
            Proc::Var { name, .. } => {
                if let Effect::Leaf(Next::Variable { value, .. }) = effect {
                    self.value = *value;
                }
                self.act(here, NOWHERE, Deed::Begin(*name))
            }
            Proc::Assign { vars, .. } => {
                for name in vars.items() {
                    self.changes(*name)?;
                }
                self.act(here, NOWHERE, Deed::Assign)
            }
            Proc::Alt(alternatives) => self.guard(alternatives.items(), effect, here),
            _ => Ok(()),
        }
    }

    /// The guard of an ALT that is taken, by the mark of the process behind it.
    fn guard(
        &mut self,
        alternatives: &[(Guard, Proc)],
        effect: &Effect<'p>,
        here: usize,
    ) -> Result<(), Memory> {
        let Effect::Leaf(Next::Process(Proc::Chan { name, .. })) = effect else {
            return Ok(());
        };
        let Some(body) = self.places.marked_by(*name) else {
            return Ok(());
        };
        let Some((branch, order)) = self.places.layout.place_among(here, body) else {
            return Ok(());
        };
        let Some((guard, _)) = alternatives.get(order) else {
            return Ok(());
        };
        match &guard.wait {
            Wait::Skip => self.act(here, branch, Deed::Choose),
            Wait::Get { chan, var } => {
                self.gets(*var)?;
                self.act(here, branch, Deed::Input(*chan, *var))
            }
            Wait::Put { chan, .. } => self.act(here, branch, Deed::Output(*chan)),
        }
    }
}
