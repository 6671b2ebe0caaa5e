ghost use Rattle.std.specs.Prelude.{◌≡◌, ◌↔◌, Bool, true};
ghost use Rattle.occ_parse_rules.specs.Places.{Sorts, Indices, for_some};
ghost use Rattle.occ_parse_scopes.specs.Taken.{Takes};

/// A test holds for some values of the indices in scope exactly where it holds for values that they take together: each
/// index has one of the values of the newest replicator of its name.
pub fn some_values_are_values_that_the_indices_take()
    ensures { (Γ : Sorts) (test : Indices → Bool) →
        (for_some Γ test ≡ true) ↔ ((ρ : Indices) × Takes Γ ρ × (test ρ ≡ true)) }
{}
