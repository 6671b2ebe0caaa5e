//! Laws: what the answer SAME says of two programs, and that steps lead back.

ghost use Rattle.std.specs.Prelude.{◌≡◌, ℕ, List, [], Option, reverse};
ghost use Rattle.occ_prove.specs.Proofs.{IsSame};
ghost use Rattle.occ_syntax.specs.declared.scope.Program.{Program};
ghost use Rattle.occ_syntax.specs.Same.{SAME};
ghost use Rattle.occ_syntax.specs.Scopes.{environment};
ghost use Rattle.occ_syntax.specs.View.{tree};
ghost use Rattle.occ_tool_run.specs.Accepts.{IsAccepted};
ghost use Rattle.occ_tool_run.specs.Answers.{Settles};
ghost use Rattle.occ_tool_run.specs.declared.answer.Answer.{Answer};
ghost use Rattle.occ_tool_run.specs.declared.judge.Question.TheVariants.{WhetherSame};
ghost use Rattle.occ_tool_run.specs.Stored.{seen};
ghost use Rattle.occ_syntax.specs.occ_base.declared.names.Name.{Name};
ghost use Rattle.occ_tool_run.specs.occ_derive_moves.Steps.{Steps};
ghost use Rattle.occ_tool_run.specs.occ_replay_rules.Moves.{Move};
ghost use Rattle.occ_prove.specs.Undone.{AreUndone};
ghost use Rattle.occ_syntax.specs.Tree.{Tree};
ghost use Rattle.occ_syntax.specs.Usage.{Keeps};
ghost use Rattle.occ_syntax.specs.declared.scope.Kind.{Kind};

use occ_tool_run::{
    kept_parts_have_known_names, one_reading, parameters_have_names, programs_read_again,
    read_programs_declare_known_names, readings_are_renamed, renamed_programs_mean_the_same,
};

/// Two files that are answered with SAME hold programs that mean the same. The first one is read first here, whichever was read first for
/// the answer: the names may have had other numbers there.
pub(crate) fn same_files_mean_the_same()
    ensures { (one two : Option (List ℕ)) (between names : List (List ℕ)) (p q : Program) (answer : Answer)
        → IsAccepted one [] between (seen p) → IsAccepted two between names (seen q)
        → Settles WhetherSame one two answer → IsSame answer
        → SAME (environment p.params) (tree p.body) (tree q.body) }
{
    one_reading();
    parameters_have_names();
    programs_read_again();
    readings_are_renamed();
    read_programs_declare_known_names();
    kept_parts_have_known_names();
    renamed_programs_mean_the_same();
}

/// Steps lead back: those that undo them, the last one first, lead to the process from which they began, which keeps all rules.
pub fn undone_steps_lead_back()
    ensures { (S : List (Name × Kind)) (p q : Tree) (moves back : List Move) → Keeps (environment S) p → Steps S p moves q
        → AreUndone p moves back → Steps S q (reverse back) p }
{}
