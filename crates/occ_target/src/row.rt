//! The process of a row of a table.

ghost use Rattle.std.specs.Prelude.{◌≡◌, ◌++◌, ◌<◌, IfOk, IsTrue, List, OnOk, drop, length, map, true};
ghost use Rattle.occ_syntax.specs.Scopes.{same_event};
ghost use Rattle.occ_syntax.specs.Tree.{ready, truth, Tree, Waiting};
ghost use Rattle.occ_syntax.specs.View.{branches, exp, in_alternatives, tree, waiting};
ghost use Rattle.occ_target.specs.Framed.{frame_of, AreBelow};
ghost use Rattle.occ_target.specs.Rows.{acceptance, begins_with, chosen, end_branch, guarded, row_process};

use crate::events::Frame;
use crate::state::ending;
use occ_nform_table::{TableOffers, TableRow};
use occ_syntax::{Alternatives, Event, Events, Expr, Guard, Memory, Proc, State, Wait};
use std::alloc::Global;

fn same_event(left: Event, right: Event) -> bool
    ensures { result ≡ same_event left right }
{
    left.chan == right.chan && left.dir == right.dir && left.value == right.value
}

/// Whether an event is the first of a set from a place on.
fn is_at_place(set: &[Event], place: usize, event: Event) -> bool
    ensures first { result ≡ begins_with (drop place set.now) event }
    ensures within { IsTrue result → place < length set.now }
{
    place < set.len() && same_event(set[place], event)
}

/// The offers of the events of a set; both stand in the order of events.
pub(crate) fn chosen(
    alloc: Global,
    set: &[Event],
    offers: &[(Event, u32)],
) -> Result<TableOffers, Memory>
    ensures { IfOk result (λ found. found ≡ chosen set.now offers.now) }
{
    let mut found = TableOffers::new(alloc);
    let mut place = 0;
    for offer in offers {
        if is_at_place(set, place, offer.0) {
            found.push(*offer)?;
            place += 1;
        }
    }
    Ok(found)
}

/// The guard that is ready at once.
fn at_once() -> Guard
    ensures condition { exp result.condition ≡ truth true }
    ensures wait { waiting result.wait ≡ ready }
{
    Guard {
        condition: Expr::Bool(true),
        wait: Wait::Skip,
    }
}

impl Frame<'_> {
    /// The ALT of the events of a set.
    fn accepting(
        &self,
        alloc: Global,
        offers: &[(Event, u32)],
        set: &[Event],
    ) -> Result<Proc, Memory>
        requires { AreBelow (length self.now.parts.now) offers.now }
        ensures { IfOk result (λ part. tree part ≡ (acceptance (frame_of self.now) offers.now set.now).1) }
    {
        let moves = chosen(alloc, set, offers)?;
        let made = self.of_events(alloc, moves.items())?;
        Ok(Proc::Alt(made))
    }

    fn push_acceptances(
        &self,
        alloc: Global,
        made: &mut Alternatives,
        offers: &[(Event, u32)],
        sets: &[Events],
    ) -> Result<(), Memory>
        requires { AreBelow (length self.now.parts.now) offers.now }
        ensures { (front : List (Waiting × Tree)) → branches (in_alternatives made.old) ≡ guarded front
            → OnOk result (branches (in_alternatives made.new)
            ≡ guarded (front ++ map (acceptance (frame_of self.now) offers.now) sets.now)) }
    {
        for set in sets {
            let part = self.accepting(alloc, offers, set.items())?;
            made.push((at_once(), part))?;
        }
        Ok(())
    }

    fn push_ends(
        &self,
        alloc: Global,
        made: &mut Alternatives,
        states: &[State],
    ) -> Result<(), Memory>
        ensures { (front : List (Waiting × Tree)) → branches (in_alternatives made.old) ≡ guarded front
            → OnOk result (branches (in_alternatives made.new) ≡ guarded (front ++ map (end_branch (frame_of self.now)) states.now)) }
    {
        for state in states {
            let part = ending(alloc, self.params, state.items())?;
            made.push((at_once(), part))?;
        }
        Ok(())
    }

    /// The process of a row: the branches of its offers, of its acceptances and of its ends.
    pub(crate) fn row_process(&self, alloc: Global, row: &TableRow) -> Result<Proc, Memory>
        requires { AreBelow (length self.now.parts.now) row.now.offers }
        ensures { IfOk result (λ part. tree part ≡ row_process (frame_of self.now) row.now) }
    {
        let offers = row.offers.items();
        let mut made = self.of_events(alloc, offers)?;
        self.push_acceptances(alloc, &mut made, offers, row.accepts.items())?;
        self.push_ends(alloc, &mut made, row.ends.items())?;
        Ok(Proc::Alt(made))
    }
}
