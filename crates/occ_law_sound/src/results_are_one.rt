//! The laws have one direct result: at one place of a part a law has one right side, and a part has one direct result.

ghost use Rattle.std.specs.Prelude.{ℕ, ◌≡◌, List};
ghost use Rattle.occ_law.specs.occ_base.declared.names.Name.{Name};
ghost use Rattle.occ_law.specs.RuleTable.{DIRECT_SIDES, IsDirect};
ghost use Rattle.occ_law.specs.occ_syntax.Tree.{Tree};
ghost use Rattle.occ_law.specs.occ_syntax.declared.scope.Kind.{Kind};

/// Where lists of one size stand in front of the changed place, the left side of a law tells its right side, for each law that
/// has direct results.
pub fn sides_are_one()
    ensures { (n : ℕ) (S : List (Name × Kind)) (ks : List ℕ) (l r s : Tree) → DIRECT_SIDES n S ks l r
        → DIRECT_SIDES n S ks l s → r ≡ s }
{}

/// A law has at most one direct result of a part in a scope.
pub fn direct_results_are_one()
    ensures { (n : ℕ) (S : List (Name × Kind)) (l r s : Tree) → IsDirect n S l r → IsDirect n S l s → r ≡ s }
{}
