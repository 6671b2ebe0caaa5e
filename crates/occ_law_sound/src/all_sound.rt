//! The laws of scripts are sound: where one holds between two parts, these mean the same.

ghost use Rattle.occ_law.specs.occ_base.declared.names.Name.{Name};
ghost use Rattle.occ_law.specs.RuleTable.{LAW};
ghost use Rattle.occ_law.specs.occ_syntax.Same.{SAME};
ghost use Rattle.occ_law.specs.occ_syntax.Scopes.{environment};
ghost use Rattle.occ_law.specs.occ_syntax.Tree.{Tree};
ghost use Rattle.occ_law.specs.occ_syntax.declared.scope.Kind.{Kind};
ghost use Rattle.std.specs.Prelude.{List, ℕ};

/// Where a law holds between two parts in a scope, they are the same there.
pub fn laws_are_sound()
    ensures { (n : ℕ) (S : List (Name × Kind)) (l r : Tree) → LAW n S l r → SAME (environment S) l r }
{}
