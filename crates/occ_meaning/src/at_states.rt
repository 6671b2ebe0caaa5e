//! Parts compared from one state: what an assignment, an IF and an ALT do there.

ghost use Rattle.occ_meaning.specs.Foundation.{Does};
ghost use Rattle.occ_meaning.specs.Parallel.{two};
ghost use Rattle.occ_syntax.specs.Eval.{is_true};
ghost use Rattle.occ_syntax.specs.Meaning.{Outcome, assigned};
ghost use Rattle.occ_syntax.specs.Scopes.{Environment, Trace, Values};
ghost use Rattle.occ_syntax.specs.Tree.{Cases, Exp, Tree, and_case, assign, select, seq};
ghost use Rattle.std.specs.Prelude.{List, false, true, ℕ, ◌↔◌, ◌≡◌};

/// A part behind an assignment does what it does from the values that are put in place.
pub fn assignments_lead_to_their_values()
    ensures { (Γ : Environment) (xs : List ℕ) (es : List Exp) (p : Tree) (s : Values) (t : Trace) (o : Outcome) →
        Does Γ (seq (two (assign xs es) p)) s t o ↔ Does Γ p (assigned xs es Γ s) t o }
{}

/// An IF does what the process of its first choice does, where that choice's condition is true.
pub fn true_choices_are_taken()
    ensures { (Γ : Environment) (e : Exp) (p : Tree) (cs : Cases) (s : Values) → is_true Γ e s ≡ true → (t : Trace) (o : Outcome) →
        Does Γ (select (and_case e p cs)) s t o ↔ Does Γ p s t o }
{}

/// Where the condition of its first choice is false, an IF does what it does without that choice.
pub fn false_choices_are_passed()
    ensures { (Γ : Environment) (e : Exp) (p : Tree) (cs : Cases) (s : Values) → is_true Γ e s ≡ false → (t : Trace) (o : Outcome) →
        Does Γ (select (and_case e p cs)) s t o ↔ Does Γ (select cs) s t o }
{}
