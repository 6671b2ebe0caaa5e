//! What two answers of `witness` have to do with each other. There is no code.

ghost use Rattle.std.specs.Prelude.{ℕ, List, Option};
ghost use Rattle.occ_tool_laws.specs.Witnessed.{AreOneWitness};
ghost use Rattle.occ_witness.specs.Answers.{Answers};

use occ_witness::one_answer;

/// `witness` has one answer to the same files, with one status and one text; but where a schedule shows the behaviour, or the one that was
/// found is too long, each answer says so, and which schedule it is is free.
pub fn refusals_exclude_schedules()
    ensures { (one two : Option (List ℕ)) (s t : ℕ) (a b : List ℕ) → Answers one two s a → Answers one two t b → AreOneWitness s a t b }
{
    one_answer();
}
