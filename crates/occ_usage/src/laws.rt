//! The law by which a part is judged alone.

ghost use Rattle.std.specs.Prelude.{◌≡◌, List, Some, ℕ};
ghost use Rattle.occ_names.specs.occ_meaning.Context.{environment_at, part_at, put};
ghost use Rattle.occ_syntax.specs.Scopes.{Environment};
ghost use Rattle.occ_syntax.specs.Tree.{Tree};
ghost use Rattle.occ_syntax.specs.Usage.{Keeps};
ghost use Rattle.occ_usage.specs.Local.{UsesNoMore};

/// A part that keeps the rules in the scope at a path, and names, writes and uses no more than the part there, may be put in: a
/// process that kept the rules keeps them.
pub fn parts_that_use_no_more_may_be_put_in()
    ensures { (path : List ℕ) (Γ : Environment) (p q r : Tree) → Keeps Γ p → part_at path p ≡ Some q → Keeps (environment_at path Γ p) r
        → UsesNoMore r q → Keeps Γ (put path p r) }
{}
