//! That there is one answer.

ghost use Rattle.std.specs.Prelude.{◌≡◌, ℕ, List};
ghost use Rattle.occ_witness.specs.occ_call.Files.{Files};
ghost use Rattle.occ_workshop_run.specs.Answers.{Answers, IsDetermined};
ghost use Rattle.occ_workshop_run.specs.Words.{job_of};

use occ_draw::one_answer as one_drawing;

/// A command line over the same files has one answer, with one status and one text, where it asks for a drawing or its words don't fit.
pub fn one_answer()
    ensures { (files : Files) (words : List (List ℕ)) (s t : ℕ) (a b : List ℕ)
        → IsDetermined (job_of words) → Answers files words s a → Answers files words t b → (s ≡ t) × (a ≡ b) }
{
    one_drawing();
}
