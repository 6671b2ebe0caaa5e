//! An ALT behind a state leads to an ALT whose guards are those of normal programs, with a configuration behind each. Here is the law;
//! there is no code.

ghost use Rattle.std.specs.Prelude.{List};
ghost use Rattle.occ_derive_laws.specs.occ_base.declared.names.Name.{Name};
ghost use Rattle.occ_derive_laws.specs.occ_derive_moves.Weight.{weight};
ghost use Rattle.occ_complete_states.specs.GuardTelling.{Opens};
ghost use Rattle.occ_complete_states.specs.Configured.{IsClear, IsLeft};
ghost use Rattle.occ_complete_states.specs.Headers.{IsHeader};
ghost use Rattle.occ_complete_states.specs.States.{in_state, scope_of};
ghost use Rattle.occ_derive_laws.specs.occ_syntax.declared.scope.Kind.{Kind};
ghost use Rattle.occ_derive_laws.specs.occ_syntax.Scopes.{Values};
ghost use Rattle.occ_derive_laws.specs.occ_syntax.Tree.{Branches, alt};
ghost use Rattle.occ_derive_laws.specs.occ_target_laws.Shapes.{Header};

/// The guards of an ALT behind a state are evaluated, each input goes into the header's variable of its width, and the declarations
/// round it go into the branches.
pub fn alternatives_are_opened()
    ensures { (h : Header) → IsHeader h → (ys : List (Name × Kind)) (s : Values) (gs : Branches) → IsLeft h ys (alt gs) → IsClear h ys s
        → Opens h (weight (alt gs)) (in_state (scope_of h) ys s (alt gs)) }
{}
