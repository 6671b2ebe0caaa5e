//! What `replay` answers of each text, and so of scripts that were printed. A script by the definitions holds its parts as they lie in memory:
//! so the text lies in memory, the reader and the replay are called, and it is so wherever memory suffices for what is read.

ghost use Rattle.std.specs.Prelude.{ℕ, ◌≡◌, ◌≢◌, ◌≤◌, List, Option, Some, IfOk, codes, length};
ghost use Rattle.occ_tool_laws.specs.Has.{HasAnswer, HasJoined, HasJoinedBetween, HasJoinedWhereNarrow};
ghost use Rattle.occ_tool_laws.specs.Joined.{IsPrintedNarrow};
ghost use Rattle.occ_prove.specs.Answers.{Answers as AnswersProve};
ghost use Rattle.occ_witness.specs.occ_tool_run.Answers.{Answers};
ghost use Rattle.occ_witness.specs.occ_call.Files.{Files, most_script_bytes};
ghost use Rattle.occ_witness.specs.occ_tool_words.Words.{derive, expand, job_of, replay, transform};

use crate::{
    derived_scripts_are_joined, expanded_scripts_are_joined, proved_scripts_are_joined,
    transformed_scripts_are_joined,
};
use occ_readings::{Memory, replays_are_told};
use std::alloc::Global;

/// Words that ask for the replay of a file that holds the text have an answer.
pub fn replays_have_answers(alloc: Global, text: &[u8]) -> Result<(), Memory>
    ensures { IfOk result (λ _. (files : Files) (words : List (List ℕ)) (script : List ℕ)
        → job_of words ≡ Some (replay script) → files script ≡ Some text.now → HasAnswer files words) }
{
    replays_are_told(alloc, text)
}

/// Where the text was printed for a transformation, an expansion, a derivation or a proof, words that ask for the replay of a file that holds
/// it have the answer JOINED with the number of its steps, and no other. The premises are those of the laws that there is no other.
pub fn printed_scripts_have_their_answer(alloc: Global, text: &[u8]) -> Result<(), Memory>
    ensures transformed { IfOk result (λ _. (files later : Files) (words again : List (List ℕ)) (program orders script : List ℕ)
        → job_of words ≡ Some (transform program orders) → Answers files words 0 text.now
        → IsPrintedNarrow (files program) → length text.now ≤ most_script_bytes
        → job_of again ≡ Some (replay script) → later script ≡ Some text.now → HasJoined later again (files program) text.now) }
    ensures expanded { IfOk result (λ _. (files later : Files) (words again : List (List ℕ)) (program path script : List ℕ)
        → job_of words ≡ Some (expand program path) → Answers files words 0 text.now
        → IsPrintedNarrow (files program) → length text.now ≤ most_script_bytes
        → job_of again ≡ Some (replay script) → later script ≡ Some text.now → HasJoined later again (files program) text.now) }
    ensures derived { IfOk result (λ _. (files later : Files) (words again : List (List ℕ)) (program script : List ℕ)
        → job_of words ≡ Some (derive program) → Answers files words 0 text.now
        → IsPrintedNarrow (files program) → length text.now ≤ most_script_bytes
        → job_of again ≡ Some (replay script) → later script ≡ Some text.now
        → HasJoinedWhereNarrow later again (files program) text.now) }
    ensures proved { IfOk result (λ _. (one two : Option (List ℕ)) (later : Files) (again : List (List ℕ)) (script : List ℕ)
        → AnswersProve one two 0 text.now → text.now ≢ codes "SAME\n" → IsPrintedNarrow one → length text.now ≤ most_script_bytes
        → job_of again ≡ Some (replay script) → later script ≡ Some text.now → HasJoinedBetween later again one two text.now) }
{
    transformed_scripts_are_joined();
    expanded_scripts_are_joined();
    derived_scripts_are_joined();
    proved_scripts_are_joined();
    replays_have_answers(alloc, text)
}
