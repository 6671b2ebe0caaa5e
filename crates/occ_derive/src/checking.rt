//! A derivation of the normal program: what the strategy proposes, checked step by step, and what a search finds where that is none.

ghost use Rattle.std.specs.Prelude.{◌≡◌, ◌≤◌, ◌<◌, Err, IfOk, IfSome, OnOk, length};
ghost use Rattle.occ_derive.specs.Derived.{CanBeWritten, IsDerivation, IsNormalWith, StandsFor, normal_of};
ghost use Rattle.occ_derive_search.specs.occ_derive_moves.Steps.{Derivable};
ghost use Rattle.occ_script_back.specs.occ_lex.Growth.{GrowsByNames};
ghost use Rattle.occ_derive_search.specs.occ_target.Inputs.{input_names};
ghost use Rattle.occ_syntax.specs.Counts.{controls};
ghost use Rattle.occ_syntax.specs.View.{tree};

use crate::DeriveFault;
use crate::frame::above;
use crate::last::last_name;
use crate::whole::proposals;
use occ_complete::normal_programs_are_derivable;
use occ_derive_search::{Outcome, Table, TargetFault, follow, search, target};
use occ_derive_unify::Lost;
use occ_script_back::{Accepted, parts_are_known_up_to_their_greatest_name};
use occ_syntax::{Memory, Names, Program, same_proc};
use std::alloc::Global;

/// The steps that the strategy proposes, where they lead from the accepted program to the normal one.
fn proposed(
    alloc: Global,
    names: &mut Names,
    accepted: &Accepted,
    normal: &Program,
) -> Result<Option<Outcome>, Memory>
    ensures derived { IfOk result (λ found. IfSome found (IsDerivation accepted.now.program (tree normal.now.body))) }
    ensures grown { GrowsByNames names.old names.new }
{
    let steps = match proposals(alloc, names, accepted.program(), &normal.body) {
        Ok(steps) => steps,
        Err(Lost::NoStep) => return Ok(None),
        Err(Lost::Memory) => return Err(Memory),
    };
    let Some(to) = follow(alloc, accepted, steps.items())? else {
        return Ok(None);
    };
    if same_proc(&to.body, &normal.body) {
        Ok(Some(Outcome { steps, to }))
    } else {
        Ok(None)
    }
}

/// Steps from the accepted program to the normal one: those of the strategy, or else the first that a search meets.
fn derivation(
    alloc: Global,
    names: &mut Names,
    accepted: &Accepted,
    normal: &Program,
) -> Result<Outcome, Memory>
    requires { Derivable accepted.now.program.params (tree accepted.now.program.body) (tree normal.now.body) }
    ensures derived { IfOk result (IsDerivation accepted.now.program (tree normal.now.body)) }
    ensures grown { GrowsByNames names.old names.new }
{
    match proposed(alloc, names, accepted, normal)? {
        Some(outcome) => Ok(outcome),
        None => search(alloc, accepted, &normal.body),
    }
}

/// Brings names into the table until one has a greater number than this.
fn cover(alloc: Global, names: &mut Names, last: usize) -> Result<(), Memory>
    ensures within { OnOk result (last < length names.new) }
    ensures grown { GrowsByNames names.old names.new }
{
    match above(alloc, names, b'd', last) {
        Ok(_) => Ok(()),
        // of 2 ^ 64 texts one is new to each table that memory holds
        Err(_) => Err(Memory),
    }
}

/// A derivation from an accepted program to a program of its header to which one leads: steps, each by a law. The names of both, and of
/// all steps' parts, stand in the table of names afterwards, which is the one before with names of the language behind it; and the lines
/// of the steps can be read. A strategy proposes the steps, which is made for normal programs; where it has none, all rows of steps are
/// tried until one is a derivation, which may take longer than anybody waits.
pub fn derive_to(
    alloc: Global,
    names: &mut Names,
    accepted: &Accepted,
    normal: &Program,
) -> Result<Outcome, Memory>
    requires { Derivable accepted.now.program.params (tree accepted.now.program.body) (tree normal.now.body) }
    ensures derived { IfOk result (IsDerivation accepted.now.program (tree normal.now.body)) }
    ensures grown { OnOk result (GrowsByNames names.old names.new) }
    ensures writable { IfOk result (CanBeWritten names.new accepted.now.program) }
{
    parts_are_known_up_to_their_greatest_name();
    let outcome = derivation(alloc, names, accepted, normal)?;
    cover(alloc, names, last_name(accepted.program(), &outcome))?;
    Ok(outcome)
}

/// A derivation of the normal program from an accepted program, whose normal table is given. `Long` comes exactly where the normal program
/// has more than 4,096 controls. Otherwise it is as `derive_to` says: behind the names that were there the table has those of the normal
/// program's own variables, and then others.
pub fn derive(
    alloc: Global,
    names: &mut Names,
    accepted: &Accepted,
    table: &Table,
) -> Result<Outcome, DeriveFault>
    requires params { table.now.params ≡ accepted.now.program.params }
    requires normal { IsNormalWith names.old table.now }
    requires stands { StandsFor table.now accepted.now.program }
    ensures derived { IfOk result (IsDerivation accepted.now.program (normal_of names.old table.now)) }
    ensures grown { OnOk result (GrowsByNames names.old names.new) }
    ensures named { OnOk result (GrowsByNames (input_names names.old table.now.params) names.new) }
    ensures writable { IfOk result (CanBeWritten names.new accepted.now.program) }
    ensures fits { OnOk result (controls (normal_of names.old table.now) ≤ 4096) }
    ensures long { result ≡ Err DeriveFault.Long → 4096 < controls (normal_of names.old table.now) }
{
    normal_programs_are_derivable();
    let normal = match target(alloc, names, accepted, table) {
        Ok(normal) => normal,
        Err(TargetFault::Long) => return Err(DeriveFault::Long),
        Err(TargetFault::Memory) => return Err(DeriveFault::Memory),
    };
    let outcome = derive_to(alloc, names, accepted, &normal)?;
    Ok(outcome)
}
