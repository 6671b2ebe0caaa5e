//! Laws of the scope at a path, and of the part there.

ghost use Rattle.std.specs.Prelude.{◌≡◌, ℕ, List, Some, true};
ghost use Rattle.occ_lex.specs.occ_base.declared.names.Name.{Name};
ghost use Rattle.occ_usage.specs.occ_meaning.Context.{part_at, put};
ghost use Rattle.occ_syntax.specs.declared.scope.Kind.{Kind};
ghost use Rattle.occ_syntax.specs.Same.{SAME};
ghost use Rattle.occ_syntax.specs.Scopes.{environment};
ghost use Rattle.occ_syntax.specs.Tree.{Tree};
ghost use Rattle.occ_syntax.specs.Types.{scope_kept, types_kept};
ghost use Rattle.occ_script_lines.specs.Laws.{IsScopeAt};
ghost use Rattle.occ_script_lines.specs.Places.{scope_list};

/// In a process of kept types, the names in scope at a path are a scope: no name stands twice. They give the environment
/// there.
pub fn scopes_at_paths()
    ensures { (path : List ℕ) (S : List (Name × Kind)) (p : Tree) → scope_kept S ≡ true → types_kept p (environment S) ≡ true → IsScopeAt path S p }
{}

/// SAME is kept in every context: where the part at a path is the same as another in the scope there, a program of kept types
/// is the same with that one put in.
pub fn same_parts_make_same_programs()
    ensures { (path : List ℕ) (S : List (Name × Kind)) (p q r : Tree) → scope_kept S ≡ true → types_kept p (environment S) ≡ true
        → part_at path p ≡ Some q → SAME (environment (scope_list path S p)) q r → SAME (environment S) p (put path p r) }
{}
