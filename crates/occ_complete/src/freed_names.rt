//! Names that a part declares give way: each part leads to one that declares none of some names. Here is the law; there is no code.

ghost use Rattle.std.specs.Prelude.{◌≡◌, ℕ, List, true};
ghost use Rattle.occ_engine.specs.occ_base.declared.names.Name.{Name};
ghost use Rattle.occ_complete.specs.Freed.{IsFreed};
ghost use Rattle.occ_complete_states.specs.Few.{IsFew};
ghost use Rattle.occ_engine.specs.occ_syntax.declared.scope.Kind.{Kind};
ghost use Rattle.occ_engine.specs.occ_syntax.Scopes.{environment};
ghost use Rattle.occ_engine.specs.occ_syntax.Tree.{Tree};
ghost use Rattle.occ_engine.specs.occ_syntax.Types.{scope_kept};
ghost use Rattle.occ_engine.specs.occ_syntax.Usage.{Keeps};

/// A part that keeps the rules, and in which the conditions of each IF name few bits, leads to one that declares none of the names
/// `ts`.
pub fn declared_names_give_way()
    ensures { (S : List (Name × Kind)) (ts : List ℕ) (p : Tree) → scope_kept S ≡ true → Keeps (environment S) p → IsFew S p → IsFreed S ts p }
{}
