//! Derivations: what the steps of a script lead to, what their replay answers, and why it stops. Here are the definitions and
//! their laws; the replay itself stands on them.

ghost use Rattle.std.specs.Prelude.{◌≡◌, ◌++◌, List};
ghost use Rattle.occ_print.specs.occ_base.declared.names.Name.{Name};
ghost use Rattle.occ_replay_rules.specs.Replays.{IsDerivation, Replayed, Replays};
ghost use Rattle.occ_replay_rules.specs.Steps.{Derives, Step};
ghost use Rattle.occ_print.specs.occ_syntax.Same.{SAME};
ghost use Rattle.occ_print.specs.occ_syntax.Scopes.{environment};
ghost use Rattle.occ_print.specs.occ_syntax.Tree.{Tree};
ghost use Rattle.occ_print.specs.occ_syntax.View.{tree};
ghost use Rattle.occ_print.specs.occ_syntax.declared.scope.Kind.{Kind};
ghost use Rattle.occ_print.specs.occ_syntax.declared.scope.Program.{Program};

use occ_law_sound::laws_are_sound;

/// A script has one answer: it is a derivation, or it has one refusal.
pub fn scripts_have_one_answer()
    ensures { (from to : Program) (steps : List Step) (a b : Replayed) → Replays from steps to a → Replays from steps to b → a ≡ b }
{}

/// A derivation joins two programs that mean the same.
pub fn derivations_join_the_same()
    ensures { (from to : Program) (steps : List Step) → IsDerivation from steps to
        → SAME (environment from.params) (tree from.body) (tree to.body) }
{
    laws_are_sound();
}

/// Steps that go on from where others lead are, behind these, steps to where they lead.
pub fn derivations_follow_each_other()
    ensures { (S : List (Name × Kind)) (p q r : Tree) (steps more : List Step) → Derives S p steps q → Derives S q more r → Derives S p (steps ++ more) r }
{}
