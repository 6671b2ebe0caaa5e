//! When conditions are few, and when one of them is TRUE in every state.

ghost use Rattle.std.specs.Prelude.{◌≡◌, ◌∷◌, ◌++◌, ℕ, List, true};
ghost use Rattle.occ_renamed.specs.occ_base.declared.names.Name.{Name};
ghost use Rattle.occ_renamed.specs.occ_law.Lists.{all_cases, conditions};
ghost use Rattle.occ_renamed.specs.occ_law.States.{AreFew, IsAlways, IsExhaustive};
ghost use Rattle.occ_renamed.specs.occ_syntax.declared.scope.Kind.{Kind};
ghost use Rattle.occ_renamed.specs.occ_syntax.Names.{some_names};
ghost use Rattle.occ_renamed.specs.occ_syntax.Scopes.{Environment};
ghost use Rattle.occ_renamed.specs.occ_syntax.Tree.{Cases, Exp};

/// Expressions are few that name no more variables than few expressions do.
pub fn conditions_that_name_less_are_few()
    ensures { (S : List (Name × Kind)) (es fs : List Exp) → AreFew S fs
        → ((x : ℕ) → some_names es x ≡ true → some_names fs x ≡ true) → AreFew S es }
{}

/// Conditions are exhaustive where one of them is always TRUE. Those of two lists of choices stand one behind the other.
pub fn lists_with_true_are_exhaustive()
    ensures always { (Γ : Environment) (bs cs : List Exp) (b : Exp) → IsAlways Γ b → IsExhaustive Γ (bs ++ b ∷ cs) }
    ensures lists { (cs ds : Cases) → conditions (all_cases cs ds) ≡ conditions cs ++ conditions ds }
{}
