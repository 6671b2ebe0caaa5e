//! Expressions in the place of variables, all at once.

ghost use Rattle.occ_meaning.specs.Substitution.{NamesNone, substituted};
ghost use Rattle.occ_syntax.specs.Eval.{eval};
ghost use Rattle.occ_syntax.specs.Meaning.{assigned};
ghost use Rattle.occ_syntax.specs.Names.{is_in, names, some_names};
ghost use Rattle.occ_syntax.specs.Scopes.{Environment, Values};
ghost use Rattle.occ_syntax.specs.Tree.{Exp};
ghost use Rattle.occ_syntax.specs.Types.{pairs_kept, type_of};
ghost use Rattle.std.specs.Prelude.{List, false, true, ℕ, ◌≡◌};

/// An expression in which variables are replaced has the value that it has after the assignment.
pub fn substituted_expressions_have_the_assigned_value()
    ensures { (Γ : Environment) (s : Values) (xs : List ℕ) (es : List Exp) → pairs_kept Γ xs es ≡ true → (e : Exp) →
        eval Γ (substituted xs es e) s ≡ eval Γ e (assigned xs es Γ s) }
{}

/// Replacing variables by expressions of their types keeps the type.
pub fn substitution_keeps_types()
    ensures { (Γ : Environment) (xs : List ℕ) (es : List Exp) → pairs_kept Γ xs es ≡ true → (e : Exp) → type_of Γ (substituted xs es e) ≡ type_of Γ e }
{}

/// A name that stands neither in an expression nor in those that are put in doesn't stand in what they make.
pub fn substitution_brings_no_other_names()
    ensures { (xs : List ℕ) (es : List Exp) (x : ℕ) → some_names es x ≡ false → (e : Exp) → names e x ≡ false → names (substituted xs es e) x ≡ false }
{}

/// A variable that is replaced doesn't stand in the result where no expression that is put in names it.
pub fn replaced_variables_are_gone()
    ensures { (Γ : Environment) (xs : List ℕ) (es : List Exp) → pairs_kept Γ xs es ≡ true → (x : ℕ) → is_in xs x ≡ true →
        some_names es x ≡ false → (e : Exp) → names (substituted xs es e) x ≡ false }
{}

/// An expression that names none of the variables stays as it is.
pub fn nothing_is_replaced_where_nothing_is_named()
    ensures { (xs : List ℕ) (es : List Exp) (e : Exp) → NamesNone e xs → substituted xs es e ≡ e }
{}
