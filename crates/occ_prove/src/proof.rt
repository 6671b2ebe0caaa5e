//! Answers, their statuses and texts.

ghost use Rattle.std.specs.Prelude.{◌≡◌, ◌≢◌, IfOk};
ghost use Rattle.occ_tool_run.specs.occ_call.Ran.{IsOwnStatus};
ghost use Rattle.occ_prove.specs.Answers.{IsSayable};
ghost use Rattle.occ_prove.specs.Proofs.{status_of_proof, text_of_proof};

use occ_syntax::Memory;
use occ_tool_run::Side;
use occ_tool_run::answer::{self, Answer};
use occ_tool_run::refusal::refusal_with;
use std::alloc::Global;

/// What two files are answered with, where there was enough memory.
#[derive(Drop)]
pub enum Proof {
    /// The script from the one program to the other, or what `same` says of the files.
    Told(Answer),
    /// Both mean the same, and their normal program has more than 4,096 controls.
    Long,
}

/// The status of an answer.
pub(crate) fn status(proof: &Proof) -> u8
    requires { IsSayable proof.now }
    ensures status { result ≡ status_of_proof proof.now }
    ensures small { IsOwnStatus result }
    ensures usage { result ≢ 2 }
{
    match proof {
        Proof::Told(told) => answer::status(told),
        Proof::Long => 3,
    }
}

/// The whole text of an answer.
pub(crate) fn text(alloc: Global, proof: Proof) -> Result<Vec<u8>, Memory>
    requires { IsSayable proof }
    ensures { IfOk result (λ text. text.items ≡ text_of_proof proof) }
{
    match proof {
        Proof::Told(told) => answer::text(alloc, told),
        Proof::Long => refusal_with(alloc, Side::First, 1, b"Long"),
    }
}
