//! The last of all names of a derivation.

ghost use Rattle.std.specs.Prelude.{◌≤◌};
ghost use Rattle.std.specs.List.{AllByRecursion};
ghost use Rattle.occ_derive.specs.Derived.{AreBelow, IsBelow, ParamIsBelow, ProgramIsBelow};
ghost use Rattle.occ_script_back.specs.Said.{IsShortPath};

use occ_derive_search::Outcome;
use occ_script_back::{Done, Path, greatest_name};
use occ_syntax::{Kind, Name, Program};

/// Reads the numbers of a path, so that it is known that each has 32 bits.
pub fn read_path(path: &Path)
    ensures { IsShortPath path.now }
{
    for number in path.items() {
        let _number = *number;
    }
}

/// The greater of two numbers.
fn greater(a: usize, b: usize) -> usize
    ensures first { a ≤ result }
    ensures second { b ≤ result }
{
    if a < b { b } else { a }
}

/// The greatest number of a name in a step's part.
fn last_in_step(step: &Done) -> usize
    ensures { IsBelow result step.now }
{
    read_path(&step.path);
    greatest_name(&step.part)
}

/// The greatest number of a name in the parts of steps.
fn last_in_steps(steps: &[Done]) -> usize
    ensures { AllByRecursion (IsBelow result) steps.now }
{
    let mut last = 0;
    for step in steps {
        last = greater(last, last_in_step(step));
    }
    last
}

/// The greatest number of a parameter.
fn last_in_params(params: &[(Name, Kind)]) -> usize
    ensures { AllByRecursion (ParamIsBelow result) params.now }
{
    let mut last = 0;
    for param in params {
        last = greater(last, param.0.0);
    }
    last
}

/// The greatest number of a name of a program.
fn last_in_program(program: &Program) -> usize
    ensures { ProgramIsBelow result program.now }
{
    let header = greater(program.name.0, last_in_params(program.params.items()));
    greater(header, greatest_name(&program.body))
}

/// The greatest number of a name in a program, in steps from it, and in the program to which they lead.
pub(crate) fn last_name(from: &Program, outcome: &Outcome) -> usize
    ensures { AreBelow result from.now outcome.now }
{
    let ends = greater(last_in_program(from), last_in_program(&outcome.to));
    greater(ends, last_in_steps(outcome.steps.items()))
}
