//! What two files are answered with, its status and its text.

ghost use Rattle.std.specs.Prelude.{◌≡◌, ◌≢◌, ◌≤◌, IfOk};
ghost use Rattle.occ_witness.specs.Findings.{IsSayable, finding_of, status_of_finding, text_of_finding};

use occ_tool_run::answer::{self, Answer};
use occ_tool_run::refusal::refusal_with;
use occ_tool_run::{Memory, Side, Witness};
use std::alloc::Global;

/// What the files of a program and of a behaviour are answered with.
#[derive(Drop)]
pub enum Finding {
    /// What `belongs` says of the files, which isn't YES.
    Told(Answer),
    /// The text of a schedule with which `run` shows the behaviour.
    Schedule(Vec<u8>),
    /// The program has the behaviour, and the schedule that was found is too long for a text that `run` reads.
    Long,
}

/// What is told of a witness.
pub(crate) fn told(witness: Witness) -> Finding
    ensures told { result ≡ finding_of witness }
    ensures sayable { IsSayable result }
{
    match witness {
        Witness::Schedule(text) => Finding::Schedule(text),
        Witness::Outside => Finding::Told(Answer::Member(false)),
        Witness::Long => Finding::Long,
    }
}

/// The status of an answer.
pub(crate) fn status(finding: &Finding) -> u8
    requires { IsSayable finding.now }
    ensures status { result ≡ status_of_finding finding.now }
    ensures small { result ≤ 3 }
    ensures usage { result ≢ 2 }
{
    match finding {
        Finding::Told(told) => answer::status(told),
        Finding::Schedule(_) => 0,
        Finding::Long => 3,
    }
}

/// The whole text of an answer.
pub(crate) fn text(alloc: Global, finding: Finding) -> Result<Vec<u8>, Memory>
    requires { IsSayable finding }
    ensures { IfOk result (λ text. text.items ≡ text_of_finding finding) }
{
    match finding {
        Finding::Told(told) => answer::text(alloc, told),
        Finding::Schedule(text) => Ok(text),
        Finding::Long => refusal_with(alloc, Side::Second, 1, b"Long"),
    }
}
