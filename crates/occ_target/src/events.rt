//! The branches of events.

ghost use Rattle.std.specs.Prelude.{◌≡◌, ◌<◌, IfOk, length, map, true};
ghost use Rattle.occ_syntax.specs.Tree.{truth};
ghost use Rattle.occ_syntax.specs.View.{branches, cases, exp, in_alternatives, in_choices, tree, waiting};
ghost use Rattle.occ_target.specs.Framed.{frame_of, AreBelow};
ghost use Rattle.occ_target.specs.Rows.{behind, choices, guarded, is_in_branch, is_on, of_events, part_at, value_choices, waits_for};

use crate::state::{constant, is_at};
use crate::widths::{variable_of, width_in};
use occ_syntax::{Alternatives, Choices, Dir, Event, Expr, Guard, Kind, Memory, Name, Proc, Wait};
use std::alloc::Global;

/// What the branches of events are made of: the parameters, the variables for inputs, and the processes of the rows behind.
#[derive(Clone, Copy)]
pub(crate) struct Frame<'a> {
    pub(crate) params: &'a [(Name, Kind)],
    pub(crate) inputs: &'a [(Name, Kind)],
    pub(crate) parts: &'a [Proc],
}

/// Whether an event is an input that stands in the branch of the event before it, whose channel is given.
pub(crate) fn is_in_branch(before: Option<Name>, event: Event) -> bool
    ensures { result ≡ is_in_branch before event }
{
    match event.dir {
        Dir::Output => false,
        Dir::Input => match before {
            None => false,
            Some(chan) => chan == event.chan,
        },
    }
}

/// Whether an offer is on a channel.
pub(crate) fn is_on(chan: Name, offer: (Event, u32)) -> bool
    ensures { result ≡ is_on chan.0 offer }
{
    offer.0.chan == chan
}

impl Frame<'_> {
    /// The process of a row.
    pub(crate) fn part(&self, alloc: Global, row: u32) -> Result<Proc, Memory>
        requires { row < length self.now.parts.now }
        ensures { IfOk result (λ part. tree part ≡ part_at (frame_of self.now).parts row) }
    {
        self.parts[row as usize].copy(alloc)
    }

    /// The guard of an event's branch.
    fn guard(&self, event: Event) -> Guard
        ensures condition { exp result.condition ≡ truth true }
        ensures wait { waiting result.wait ≡ waits_for (frame_of self.now) event.dir event.chan.0 event.value }
    {
        let width = width_in(self.params, event.chan);
        let wait = match event.dir {
            Dir::Input => Wait::Get {
                chan: event.chan,
                var: variable_of(self.inputs, width),
            },
            Dir::Output => Wait::Put {
                chan: event.chan,
                value: constant(width, event.value),
            },
        };
        Guard {
            condition: Expr::Bool(true),
            wait,
        }
    }

    /// For each value that is input from a channel the choice of the row behind it.
    fn choices(&self, alloc: Global, chan: Name, offers: &[(Event, u32)]) -> Result<Choices, Memory>
        requires { AreBelow (length self.now.parts.now) offers.now }
        ensures { IfOk result (λ made. cases (in_choices made) ≡ choices (value_choices (frame_of self.now) chan.0 offers.now)) }
    {
        let width = width_in(self.params, chan);
        let variable = variable_of(self.inputs, width);
        let mut made = Choices::new(alloc);
        for offer in offers {
            if is_on(chan, *offer) {
                let condition = is_at(alloc, variable, width, offer.0.value)?;
                let part = self.part(alloc, offer.1)?;
                made.push((condition, part))?;
            }
        }
        Ok(made)
    }

    /// What follows the first of these events; all inputs from its channel are one branch.
    #[tactic(auto, unfolding(crate::specs::tree))]
    fn behind(
        &self,
        alloc: Global,
        first: (Event, u32),
        offers: &[(Event, u32)],
    ) -> Result<Proc, Memory>
        requires first { first.1 < length self.now.parts.now }
        requires all { AreBelow (length self.now.parts.now) offers.now }
        ensures { IfOk result (λ part. tree part ≡ behind (frame_of self.now) first.0.dir first.0.chan.0 first.1 offers.now) }
    {
        match first.0.dir {
            Dir::Input => Ok(Proc::If(self.choices(alloc, first.0.chan, offers)?)),
            Dir::Output => self.part(alloc, first.1),
        }
    }

    /// The branches of events in order. Events of one channel stand together.
    pub(crate) fn of_events(
        &self,
        alloc: Global,
        offers: &[(Event, u32)],
    ) -> Result<Alternatives, Memory>
        requires { AreBelow (length self.now.parts.now) offers.now }
        ensures { IfOk result (λ made. branches (in_alternatives made) ≡ guarded (of_events (frame_of self.now) offers.now)) }
    {
        let mut made = Alternatives::new(alloc);
        let mut before = None;
        for (place, offer) in offers.iter().enumerate() {
            if !is_in_branch(before, offer.0) {
                let part = self.behind(alloc, *offer, &offers[place..])?;
                made.push((self.guard(offer.0), part))?;
            }
            before = Some(offer.0.chan);
        }
        Ok(made)
    }
}
