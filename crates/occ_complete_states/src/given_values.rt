//! What follows an input becomes an IF over the values of the variable that took it in. Here is the law; there is no code.

ghost use Rattle.std.specs.Prelude.{◌≡◌, ℕ, List, Some, [], true};
ghost use Rattle.std.specs.List.{AllByRecursion};
ghost use Rattle.occ_derive_laws.specs.occ_base.declared.width.Width.{Width};
ghost use Rattle.occ_derive_laws.specs.occ_derive_moves.Unified.{is_target};
ghost use Rattle.occ_complete_states.specs.Ways.{IsChosen};
ghost use Rattle.occ_complete_states.specs.Configured.{IsGiven};
ghost use Rattle.occ_complete_states.specs.Headers.{IsHeader};
ghost use Rattle.occ_complete_states.specs.Nodes.{any_of};
ghost use Rattle.occ_complete_states.specs.States.{scope_of};
ghost use Rattle.occ_derive_laws.specs.occ_syntax.Scopes.{environment, variable_width};
ghost use Rattle.occ_derive_laws.specs.occ_syntax.Tree.{Tree};
ghost use Rattle.occ_derive_laws.specs.occ_syntax.Usage.{Keeps};
ghost use Rattle.occ_derive_laws.specs.occ_target_laws.Shapes.{Header};

/// Where a variable of the header took a value in, and another one is to have it, there is a choice for each value, and behind it that
/// other variable has the value and this one is FALSE or 0 again.
pub fn given_values_are_told()
    ensures { (h : Header) → IsHeader h → (limit t : ℕ) (w : Width) (ps : List Tree) → is_target h t ≡ true
        → variable_width (environment (scope_of h)) t ≡ Some w → (ps ≡ [] → ⊥) → AllByRecursion (IsGiven h t limit) ps
        → Keeps (environment (scope_of h)) (any_of ps) → IsChosen h t w limit (any_of ps) }
{}
