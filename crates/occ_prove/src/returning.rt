//! Steps undone.

ghost use Rattle.std.specs.Prelude.{◌≡◌, IfOk};
ghost use Rattle.occ_tool_run.specs.occ_derive_search.Derivations.{IsDerived};
ghost use Rattle.occ_tool_run.specs.occ_engine.Moved.{moves_of};
ghost use Rattle.occ_prove.specs.Undone.{AreUndone, opposite as opposite_of};
ghost use Rattle.occ_syntax.specs.View.{tree};

use occ_syntax::{Memory, Program};
use occ_tool_run::{Direction, Done, Outcome, replace};
use std::alloc::Global;

fn opposite(dir: Direction) -> Direction
    ensures { result ≡ opposite_of dir }
{
    match dir {
        Direction::Forward => Direction::Backward,
        Direction::Backward => Direction::Forward,
    }
}

/// For each step of an outcome, in their order, the step that undoes it: the same law the other way round, which puts the part back
/// that stood there.
pub(crate) fn undone(alloc: Global, from: &Program, outcome: &Outcome) -> Result<Vec<Done>, Memory>
    requires { IsDerived from.now outcome.now }
    ensures { IfOk result (λ back. AreUndone (tree from.now.body) (moves_of outcome.now.steps) (moves_of back.items)) }
{
    let mut back = Vec::new(alloc);
    let mut here = from.copy(alloc)?;
    for step in outcome.steps.items() {
        let (next, part) = replace(alloc, here, &step.path, step.part.copy(alloc)?)?;
        here = next;
        back.push(Done {
            law: step.law,
            dir: opposite(step.dir),
            path: step.path.copy(alloc)?,
            part,
        })?;
    }
    Ok(back)
}
