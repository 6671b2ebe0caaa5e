ghost use Rattle.std.specs.Prelude.{◌≢◌, ℕ, List, Option, IfOk};
ghost use Rattle.occ_call.specs.Files.{IsLoaded, IsShort, most_bytes};
ghost use Rattle.occ_tool_run.specs.Stored.{seen};
ghost use Rattle.occ_tool_run.specs.Texts.{IsPrintable};
ghost use Rattle.occ_tool_run.specs.Answers.{IsSought, Seeks};
ghost use Rattle.occ_tool_words.specs.occ_parse.Known.{NamesAreKnown};

use crate::accept::{accept, refused};
use crate::answer::Answer;
use occ_call::Loaded;
use occ_refine::deadlocked;
use occ_run_schedule::{Accepted, Side};
use occ_syntax::{Memory, Names};
use std::alloc::Global;

/// The answer to a file whose program may be stuck.
pub fn seek(alloc: Global, program: &Loaded) -> Result<Answer, Memory>
    requires { IsShort most_bytes program.now }
    ensures seeks { IfOk result (λ answer. (file : Option (List ℕ)) → IsLoaded most_bytes file program.now → Seeks file answer) }
    ensures printable { IfOk result IsPrintable }
    ensures usage { IfOk result (λ answer. answer ≢ Answer.Usage) }
{
    let mut names = Names::new(alloc);
    match accept(alloc, &mut names, program) {
        Ok(accepted) => sought(alloc, names, &accepted),
        Err(refusal) => refused(names, Side::First, refusal),
    }
}

/// Where an accepted program can be stuck.
fn sought(alloc: Global, names: Names, accepted: &Accepted) -> Result<Answer, Memory>
    requires { NamesAreKnown names accepted.now.program }
    ensures sought { IfOk result (IsSought names (seen accepted.now.program)) }
    ensures printable { IfOk result IsPrintable }
    ensures usage { IfOk result (λ answer. answer ≢ Answer.Usage) }
{
    let found = deadlocked(alloc, accepted)?;
    Ok(Answer::Sought(names, found))
}
