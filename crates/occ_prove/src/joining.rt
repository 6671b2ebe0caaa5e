//! Steps from one accepted program to another.

ghost use Rattle.std.specs.Prelude.{◌≡◌, ◌↔◌, ◌++◌, ℕ, List, reverse, IfOk, IsTrue};
ghost use Rattle.occ_tool_run.specs.occ_derive_search.Derivations.{IsDerived};
ghost use Rattle.occ_tool_run.specs.occ_print.Known.{ProgramIsKnown};
ghost use Rattle.occ_prove.specs.Joined.{AreWritable, HaveOneHeader, IsProof};
ghost use Rattle.occ_syntax.specs.View.{tree};

use crate::law::undone_steps_lead_back;
use crate::returning::undone;
use occ_syntax::{Kind, Memory, Name, Program};
use occ_tool_run::{Accepted, Done, Dones, Outcome, steps_go_on};
use std::alloc::Global;

fn is_same_parameter(left: (Name, Kind), right: (Name, Kind)) -> bool
    ensures { IsTrue result ↔ (left ≡ right) }
{
    left == right
}

/// Whether two parameter lists are equal.
fn are_same_parameters(left: &[(Name, Kind)], right: &[(Name, Kind)]) -> bool
    ensures { IsTrue result ↔ (left.now ≡ right.now) }
{
    match left {
        [] => right.is_empty(),
        [first, left @ ..] => match right {
            [] => false,
            [second, right @ ..] => {
                if is_same_parameter(*first, *second) {
                    are_same_parameters(left, right)
                } else {
                    false
                }
            }
        },
    }
}

/// Whether two programs have one header: one name and the same parameters.
pub fn have_one_header(left: &Program, right: &Program) -> bool
    ensures { IsTrue result ↔ HaveOneHeader left.now right.now }
{
    left.name == right.name && are_same_parameters(left.params.items(), right.params.items())
}

/// Steps with others behind them, of which the last comes first.
fn behind(there: Dones, back: Vec<Done>) -> Result<Dones, Memory>
    ensures { IfOk result (λ steps. steps ≡ there ++ reverse back.items) }
{
    let mut steps = there;
    let mut back = back;
    while let Some(step) = back.pop() {
        steps.push(step)?;
    }
    Ok(steps)
}

/// Steps from one accepted program to another of the same header, where steps from both lead to one process: those of the first, and
/// behind them those of the second undone, the last one first.
pub fn joined(
    alloc: Global,
    left: &Accepted,
    right: &Accepted,
    there: Outcome,
    back: &Outcome,
) -> Result<Dones, Memory>
    requires there { IsDerived left.now.program there }
    requires back { IsDerived right.now.program back.now }
    requires header { HaveOneHeader left.now.program right.now.program }
    requires meet { tree there.to.body ≡ tree back.now.to.body }
    ensures proof { IfOk result (λ steps. IsProof left.now.program right.now.program steps) }
    ensures writable { (names : List (List ℕ)) → AreWritable names there.steps → AreWritable names back.now.steps
        → ProgramIsKnown names right.now.program.name.0 right.now.program.params (tree right.now.program.body)
        → IfOk result (AreWritable names) }
{
    steps_go_on();
    undone_steps_lead_back();
    let back = undone(alloc, right.program(), back)?;
    let Outcome { steps, to: _ } = there;
    behind(steps, back)
}
