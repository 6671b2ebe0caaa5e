//! Laws of codes.

ghost use Rattle.std.specs.Prelude.{◌≡◌, List, true};
ghost use Rattle.occ_syntax.specs.occ_base.declared.names.Name.{Name};
ghost use Rattle.occ_derive_search.specs.Codes.{HasCode};
ghost use Rattle.occ_derive_moves.specs.Steps.{Steps};
ghost use Rattle.occ_derive_moves.specs.occ_replay_rules.Moves.{Move};
ghost use Rattle.occ_syntax.specs.declared.scope.Kind.{Kind};
ghost use Rattle.occ_syntax.specs.Scopes.{environment};
ghost use Rattle.occ_syntax.specs.Tree.{Tree};
ghost use Rattle.occ_syntax.specs.Types.{scope_kept};
ghost use Rattle.occ_syntax.specs.Usage.{Keeps};

/// Each derivation from a process that keeps all rules has a code.
pub fn derivations_have_codes()
    ensures { (S : List (Name × Kind)) (p q : Tree) (moves : List Move) → scope_kept S ≡ true → Keeps (environment S) p → Steps S p moves q
        → HasCode moves }
{}
