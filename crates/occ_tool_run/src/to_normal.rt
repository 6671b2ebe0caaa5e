//! Programs whose normal programs are derived, law by law. The answer is the script of the steps.

ghost use Rattle.std.specs.Prelude.{◌≡◌, ◌≢◌, ℕ, List, Option, IfOk};
ghost use Rattle.occ_tool_run.specs.Answers.{Derives};
ghost use Rattle.occ_tool_run.specs.Derived.{IsDerived};
ghost use Rattle.occ_call.specs.Files.{IsLoaded, IsShort, most_bytes};
ghost use Rattle.occ_tool_run.specs.Judged.{HasInterface};
ghost use Rattle.occ_tool_run.specs.Texts.{IsPrintable};

use crate::accept::{accept_first, refused};
use crate::answer::Answer;
use crate::transforming::script;
use occ_call::Loaded;
use occ_derive::DeriveFault;
use occ_read_renamed::normal_table;
use occ_run_schedule::{Accepted, Side};
use occ_syntax::{Memory, Names};
use std::alloc::Global;

/// The answer to a file whose program's normal program is to be derived.
pub fn derive(alloc: Global, program: &Loaded) -> Result<Answer, Memory>
    requires { IsShort most_bytes program.now }
    ensures derives { IfOk result (λ answer. (file : Option (List ℕ)) → IsLoaded most_bytes file program.now → Derives file answer) }
    ensures printable { IfOk result IsPrintable }
    ensures usage { IfOk result (λ answer. answer ≢ Answer.Usage) }
{
    let mut names = Names::new(alloc);
    match accept_first(alloc, &mut names, program) {
        Ok(accepted) => derive_program(alloc, names, &accepted),
        Err(refusal) => refused(names, Side::First, refusal),
    }
}

/// The answer to an accepted program.
fn derive_program(alloc: Global, names: Names, accepted: &Accepted) -> Result<Answer, Memory>
    requires { HasInterface names accepted.now.program }
    ensures derived { IfOk result (IsDerived names accepted.now.program) }
    ensures printable { IfOk result IsPrintable }
    ensures usage { IfOk result (λ answer. answer ≢ Answer.Usage) }
{
    let table = normal_table(alloc, &names, accepted)?;
    let mut names = names;
    match occ_derive::derive(alloc, &mut names, accepted, &table) {
        Ok(outcome) => script(alloc, &names, accepted, &outcome),
        Err(DeriveFault::Long) => Ok(Answer::Long),
        Err(DeriveFault::Memory) => Err(Memory),
    }
}
