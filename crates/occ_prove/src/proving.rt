//! The script from one program to another that means the same: a derivation of the one's normal program, and behind it that of the
//! other's, which is the same program, step by step undone.

ghost use Rattle.std.specs.Prelude.{◌≡◌, ◌≢◌, ◌↔◌, ℕ, List, Option, Err, IfOk, IsTrue, OnOk};
ghost use Rattle.std.specs.List.{AllByRecursion};
ghost use Rattle.occ_tool_run.specs.occ_derive.Derived.{CanBeWritten};
ghost use Rattle.occ_tool_run.specs.occ_lex.Growth.{GrowsByNames};
ghost use Rattle.occ_tool_run.specs.occ_print.Known.{ProgramIsKnown};
ghost use Rattle.occ_prove.specs.Answers.{IsSayable};
ghost use Rattle.occ_prove.specs.Normal.{IsLong, IsToNormal};
ghost use Rattle.occ_prove.specs.Pairs.{AreReady};
ghost use Rattle.occ_prove.specs.Proofs.{IsProved, IsSame, Proves};
ghost use Rattle.occ_prove.specs.Joined.{AreWritable, IsProof};
ghost use Rattle.occ_tool_run.specs.occ_script_back.Said.{IsSaid};
ghost use Rattle.occ_syntax.specs.Same.{SAME};
ghost use Rattle.occ_syntax.specs.Scopes.{environment};
ghost use Rattle.occ_syntax.specs.View.{tree};
ghost use Rattle.occ_tool_run.specs.occ_call.Files.{IsLoaded, IsShort, most_bytes};
ghost use Rattle.occ_tool_run.specs.Judged.{HasInterface};
ghost use Rattle.occ_tool_run.specs.Texts.{IsPrintable};
ghost use Rattle.occ_tool_run.specs.Transforms.{IsScriptOf};

use crate::joining::joined;
use crate::law::same_files_mean_the_same;
use crate::pair::{Pair, read_pair};
use crate::path::read_paths;
use crate::proof::Proof;
use occ_syntax::{Memory, Names};
use occ_tool_run::answer::Answer;
use occ_tool_run::judge::{Question, judge};
use occ_tool_run::transforming::script;
use occ_tool_run::{
    Accepted, DeriveFault, Dones, Loaded, Outcome, Verdict, derive, derive_to,
    normal_programs_are_derivable, normal_table, parts_are_known_up_to_their_greatest_name,
};
use std::alloc::Global;

/// Whether it is the answer that two programs mean the same.
fn is_same(answer: &Answer) -> bool
    ensures { IsTrue result ↔ IsSame answer.now }
{
    match answer {
        Answer::Compared(_, verdict) => match verdict {
            Verdict::Same => true,
            Verdict::Differ { .. } => false,
        },
        _ => false,
    }
}

/// The answer to two files.
pub(crate) fn proof_of(alloc: Global, one: &Loaded, two: &Loaded) -> Result<Proof, Memory>
    requires first { IsShort most_bytes one.now }
    requires second { IsShort most_bytes two.now }
    ensures proves { IfOk result (λ proof. (a b : Option (List ℕ)) → IsLoaded most_bytes a one.now → IsLoaded most_bytes b two.now
        → Proves a b proof) }
    ensures sayable { IfOk result IsSayable }
{
    same_files_mean_the_same();
    let told = judge(alloc, Question::WhetherSame, one, two)?;
    if !is_same(&told) {
        return Ok(Proof::Told(told));
    }
    match read_pair(alloc, one, two)? {
        Some(pair) => proved(alloc, pair),
        None => Ok(Proof::Told(told)),
    }
}

/// The answer to two accepted programs of one header that mean the same.
fn proved(alloc: Global, pair: Pair) -> Result<Proof, Memory>
    requires ready { AreReady pair }
    requires same { SAME (environment pair.left.program.params) (tree pair.left.program.body) (tree pair.right.program.body) }
    ensures proved { IfOk result (IsProved pair.names pair.left.program pair.right.program) }
    ensures sayable { IfOk result IsSayable }
{
    parts_are_known_up_to_their_greatest_name();
    normal_programs_are_derivable();
    let Pair { names, left, right } = pair;
    let mut names = names;
    let there = match normal(alloc, &mut names, &left) {
        Ok(outcome) => outcome,
        Err(DeriveFault::Long) => return Ok(Proof::Long),
        Err(DeriveFault::Memory) => return Err(Memory),
    };
    let back = derive_to(alloc, &mut names, &right, &there.to)?;
    let steps = joined(alloc, &left, &right, there, &back)?;
    Ok(Proof::Told(written(alloc, &names, &left, &right, steps)?))
}

/// Steps from an accepted program to its normal program.
fn normal(alloc: Global, names: &mut Names, accepted: &Accepted) -> Result<Outcome, DeriveFault>
    requires { HasInterface names.old accepted.now.program }
    ensures derived { IfOk result (IsToNormal names.old accepted.now.program) }
    ensures known { IfOk result (CanBeWritten names.new accepted.now.program) }
    ensures grown { OnOk result (GrowsByNames names.old names.new) }
    ensures long { result ≡ Err DeriveFault.Long → IsLong names.old accepted.now.program }
{
    let table = normal_table(alloc, names, accepted)?;
    derive(alloc, names, accepted, &table)
}

/// The script of steps from one accepted program to another.
fn written(
    alloc: Global,
    names: &Names,
    left: &Accepted,
    right: &Accepted,
    steps: Dones,
) -> Result<Answer, Memory>
    requires proof { IsProof left.now.program right.now.program steps }
    requires writable { AreWritable names.now steps }
    requires left { ProgramIsKnown names.now left.now.program.name.0 left.now.program.params (tree left.now.program.body) }
    requires right { ProgramIsKnown names.now right.now.program.name.0 right.now.program.params (tree right.now.program.body) }
    ensures written { IfOk result (IsScriptOf names.now left.now.program steps right.now.program) }
    ensures said { AllByRecursion IsSaid steps }
    ensures printable { IfOk result IsPrintable }
    ensures usage { IfOk result (λ answer. answer ≢ Answer.Usage) }
{
    read_paths(steps.items());
    let to = right.program().copy(alloc)?;
    script(alloc, names, left, &Outcome { steps, to })
}
