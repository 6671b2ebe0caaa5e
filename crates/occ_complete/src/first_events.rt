//! Each part of a program leads to one of which it is plain what it does first: an assignment, an IF with a last choice, an ALT, the
//! declaration of a variable, or nothing. Here is the law; there is no code.

ghost use Rattle.std.specs.Prelude.{◌≡◌, List, true};
ghost use Rattle.occ_engine.specs.occ_base.declared.names.Name.{Name};
ghost use Rattle.occ_complete.specs.Headed.{HasHead};
ghost use Rattle.occ_complete_states.specs.Few.{IsFew};
ghost use Rattle.occ_engine.specs.occ_syntax.declared.scope.Kind.{Kind};
ghost use Rattle.occ_engine.specs.occ_syntax.Scopes.{environment};
ghost use Rattle.occ_engine.specs.occ_syntax.Tree.{Tree};
ghost use Rattle.occ_engine.specs.occ_syntax.Types.{scope_kept};
ghost use Rattle.occ_engine.specs.occ_syntax.Usage.{Keeps};

/// A part that keeps the rules, and in which the conditions of each IF name few bits, leads to a head that is no heavier.
pub fn parts_have_heads()
    ensures { (S : List (Name × Kind)) (p : Tree) → scope_kept S ≡ true → Keeps (environment S) p → IsFew S p → HasHead S p }
{}
