ghost use Rattle.std.specs.Prelude.{ℕ, ◌≡◌, ◌↔◌, List, Some, [], ◌∷◌, codes};
ghost use Rattle.occ_syntax.specs.occ_base.Names.{IsDistinct};
ghost use Rattle.occ_syntax.specs.Usage.{KeepsUsage};
ghost use Rattle.occ_tool_run.specs.Accepts.{IsAcceptedText, Program};
ghost use Rattle.occ_call.specs.Files.{Files};
ghost use Rattle.occ_tool_run.specs.Ends.{HaveOneEnd};
ghost use Rattle.occ_tool_run.specs.Answers.{Answers, IsDetermined};
ghost use Rattle.occ_tool_words.specs.Words.{derive, job_of};

use occ_engine_written::{
    expansions_have_no_fault, expansions_have_one_fault, expansions_have_one_outcome,
    followed_orders_have_one_outcome, orders_follow_or_stop, orders_stop_once,
};
use occ_read_renamed::programs_have_one_table;
use occ_refine::{one_verdict, refined_both_ways};
use occ_replay::{one_orders, one_script, scripts_have_one_answer};
use occ_run_schedule::{
    behaviours_are_read_as_written, faults_are_those_of_what_is_written,
    faults_stand_where_nothing_goes_on, normal_texts_are_read_as_written, one_deadlock,
    one_following, one_refinement,
};
use occ_tool_words::one_reading;

/// A command line over the same files has one answer, with one status and one text; but the steps of `derive` are free.
pub fn one_answer()
    ensures { (files : Files) (words : List (List ℕ)) (s t : ℕ) (a b : List ℕ)
        → IsDetermined (job_of words) → Answers files words s a → Answers files words t b → (s ≡ t) × (a ≡ b) }
{
    one_reading();
    normal_texts_are_read_as_written();
    faults_are_those_of_what_is_written();
    behaviours_are_read_as_written();
    faults_stand_where_nothing_goes_on();
    programs_have_one_table();
    one_verdict();
    one_refinement();
    one_deadlock();
    one_script();
    scripts_have_one_answer();
    one_following();
    one_orders();
    followed_orders_have_one_outcome();
    orders_follow_or_stop();
    orders_stop_once();
    expansions_have_one_outcome();
    expansions_have_no_fault();
    expansions_have_one_fault();
}

/// Two answers of `derive` to one command line over the same files have one status and one text; or both are scripts, which begin with one
/// program and end with one, whose names are numbers of one table.
pub fn derivations_have_one_end()
    ensures { (files : Files) (words : List (List ℕ)) (program : List ℕ) (s t : ℕ) (a b : List ℕ)
        → job_of words ≡ Some (derive program) → Answers files words s a → Answers files words t b → HaveOneEnd s a t b }
{
    one_reading();
    programs_have_one_table();
}

/// The program of an accepted text keeps the rule of usage: at each PAR no part names a variable that another writes, and no end of a channel
/// is used in two parts.
pub fn accepted_programs_keep_usage()
    ensures { (text : List ℕ) (old new : List (List ℕ)) (program : Program) → IsDistinct old → IsAcceptedText text old new program
        → KeepsUsage program.body }
{}

/// Two files are answered with SAME exactly where each of them is answered to refine the other, whichever is given first.
pub fn same_where_both_refine()
    ensures { (files : Files) (tool first second : List ℕ) (k m n : ℕ) (x y z : List ℕ)
        → Answers files (tool ∷ codes "refine" ∷ first ∷ second ∷ []) k x
        → Answers files (tool ∷ codes "refine" ∷ second ∷ first ∷ []) m y
        → Answers files (tool ∷ codes "same" ∷ first ∷ second ∷ []) n z
        → ((x ≡ codes "REFINES\n") × (y ≡ codes "REFINES\n")) ↔ (z ≡ codes "SAME\n") }
{
    one_reading();
    refined_both_ways();
}
