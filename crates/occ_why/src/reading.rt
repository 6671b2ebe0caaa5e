//! A program's file, and the lines of a behaviour.

ghost use Rattle.std.specs.Prelude.{◌≤◌, ◌↔◌, ℕ, List, [], length, Option, IfOk, IfSome, IsTrue};
ghost use Rattle.occ_why_text.specs.occ_base.Names.{IsDistinct};
ghost use Rattle.occ_tool_run.specs.Judged.{HasInterface, IsAcceptedFrom};
ghost use Rattle.occ_tool_run.specs.occ_call.Files.{IsLoaded, IsShort, most_bytes};
ghost use Rattle.occ_why.specs.Told.{IsClaimOf, IsOne};

use occ_tool_run::accept::{Refusal, accept_first};
use occ_tool_run::{
    ClaimFault, Loaded, MOST_BYTES, Witness, behaviour_read_read as read_claim,
    behaviours_are_read_as_written, find_witness,
};
use occ_why_text::{Accepted, Behaviour, Memory, Names, Places, Point, Subject, Walk, walked};
use std::alloc::Global;

/// A program, its places, and a behaviour of its interface.
#[derive(Drop)]
pub(crate) struct Reading {
    accepted: Accepted,
    behaviour: Behaviour,
    places: Places,
}

impl Reading {
    ghost use Rattle.occ_tool_run.specs.occ_run_schedule.Witnesses.{HasIt, IsWitness};

    /// Whether the program has the behaviour, and a schedule that shows it.
    pub(crate) fn witness(&self, alloc: Global) -> Result<Witness, Memory>
        requires { IsOne self.now.places.marked.accepted.program.params self.now.accepted.program self.now.behaviour }
        ensures { IfOk result (IsWitness self.now.accepted.program self.now.behaviour) }
    {
        find_witness(alloc, &self.accepted, &self.behaviour)
    }

    /// Whether the program has the behaviour.
    pub(crate) fn has_it(&self, alloc: Global) -> Result<bool, Memory>
        requires { IsOne self.now.places.marked.accepted.program.params self.now.accepted.program self.now.behaviour }
        ensures { IfOk result (λ has. IsTrue has ↔ HasIt self.now.accepted.program self.now.behaviour) }
    {
        match self.witness(alloc)? {
            Witness::Schedule(_) | Witness::Long => Ok(true),
            Witness::Outside => Ok(false),
        }
    }

    /// Where the program begins.
    pub(crate) fn start(&self) -> Result<Point<'_>, Memory>
        requires { IsOne self.now.places.marked.accepted.program.params self.now.accepted.program self.now.behaviour }
    {
        self.places.point(&self.behaviour.state)
    }

    /// The walk of the program by a schedule; None where a step isn't there.
    pub(crate) fn follow(&self, alloc: Global, schedule: &[u8]) -> Result<Option<Walk<'_>>, Memory>
        requires { IsOne self.now.places.marked.accepted.program.params self.now.accepted.program self.now.behaviour }
    {
        let start = self.start()?;
        walked(alloc, start, schedule)
    }

    /// What is told of the program, whose file has that name.
    pub(crate) fn subject<'r>(&'r self, name: &'r str) -> Subject<'r> {
        Subject {
            file: name.as_bytes(),
            places: &self.places,
            params: self.accepted.program().params.items(),
            behaviour: &self.behaviour,
        }
    }
}

/// An accepted program's file and the lines of a behaviour of its interface, read together; None where they aren't that.
pub(crate) fn read(alloc: Global, program: &Loaded, lines: &[u8]) -> Result<Option<Reading>, Memory>
    requires { IsShort most_bytes program.now }
    ensures claim { IfOk result (λ found. IfSome found (λ reading. (file : Option (List ℕ)) → IsLoaded most_bytes file program.now
        → IsClaimOf file lines.now reading.accepted.program reading.behaviour)) }
    ensures one { IfOk result (λ found. IfSome found (λ reading.
        IsOne reading.places.marked.accepted.program.params reading.accepted.program reading.behaviour)) }
{
    if lines.len() as u64 > MOST_BYTES {
        return Ok(None);
    }
    let mut names = Names::new(alloc);
    match accept_first(alloc, &mut names, program) {
        Ok(accepted) => read_with(alloc, &names, accepted, program, lines),
        Err(Refusal::Memory) => Err(Memory),
        Err(_) => Ok(None),
    }
}

fn read_with(
    alloc: Global,
    names: &Names,
    accepted: Accepted,
    program: &Loaded,
    lines: &[u8],
) -> Result<Option<Reading>, Memory>
    requires short { IsShort most_bytes program.now }
    requires few { length lines.now ≤ 65536 }
    requires distinct { IsDistinct names.now }
    requires interface { HasInterface names.now accepted.program }
    requires accepted { IsAcceptedFrom program.now [] names.now accepted.program }
    ensures claim { IfOk result (λ found. IfSome found (λ reading. (file : Option (List ℕ)) → IsLoaded most_bytes file program.now
        → IsClaimOf file lines.now reading.accepted.program reading.behaviour)) }
    ensures one { IfOk result (λ found. IfSome found (λ reading.
        IsOne reading.places.marked.accepted.program.params reading.accepted.program reading.behaviour)) }
{
    behaviours_are_read_as_written();
    let Loaded::Bytes(text) = program else {
        return Ok(None);
    };
    let held = accepted.program();
    let behaviour = match read_claim(alloc, names, held.params.items(), lines) {
        Ok(behaviour) => behaviour,
        Err(ClaimFault::Memory) => return Err(Memory),
        Err(ClaimFault::Form { .. }) => return Ok(None),
    };
    let Some(places) = Places::of(alloc, text, held)? else {
        return Ok(None);
    };
    Ok(Some(Reading {
        accepted,
        behaviour,
        places,
    }))
}
