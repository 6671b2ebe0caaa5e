//! Settling ends, and does nothing twice.

ghost use Rattle.occ_run_steps.specs.Control.{Control};
ghost use Rattle.occ_run_steps.specs.Settled.{is_settled, settled};
ghost use Rattle.occ_meaning.specs.occ_syntax.Scopes.{Environment, Values};
ghost use Rattle.std.specs.Prelude.{true, ◌≡◌};

/// What a control tree comes to has nothing left to settle.
pub fn what_is_settled_is_settled()
    ensures { (Γ : Environment) (s : Values) (C : Control) → is_settled (settled Γ s C) ≡ true }
{}

/// A control tree with nothing left to settle stays as it is.
pub fn what_is_settled_stays()
    ensures { (Γ : Environment) (s : Values) (C : Control) → is_settled C ≡ true → settled Γ s C ≡ C }
{}
