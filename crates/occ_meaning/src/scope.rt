//! Which names a part has, and which don't matter to it.

ghost use Rattle.occ_syntax.specs.occ_base.declared.event.Dir.{Dir};
ghost use Rattle.occ_meaning.specs.Foundation.{AgreeOff, Does, IsNoVariable, with_result};
ghost use Rattle.occ_meaning.specs.Rename.{stands};
ghost use Rattle.occ_syntax.specs.Meaning.{Outcome};
ghost use Rattle.occ_syntax.specs.Names.{free, uses_end, written};
ghost use Rattle.occ_syntax.specs.Same.{SAME};
ghost use Rattle.occ_syntax.specs.Scopes.{Environment, Trace, Values, allows, variable_width, with_value};
ghost use Rattle.occ_syntax.specs.Tree.{Tree};
ghost use Rattle.occ_syntax.specs.Types.{types_kept};
ghost use Rattle.std.specs.Prelude.{None, false, is_none, true, ℕ, ◌↔◌, ◌≡◌};

/// A well-typed part has no free name that isn't in scope.
pub fn free_names_are_in_scope()
    ensures { (p : Tree) (Γ : Environment) → types_kept p Γ ≡ true → (x : ℕ) → Γ x ≡ None → free p x ≡ false }
{}

/// What isn't a variable in scope isn't written.
pub fn written_names_are_variables()
    ensures { (p : Tree) (Γ : Environment) → types_kept p Γ ≡ true → (x : ℕ) → variable_width Γ x ≡ None → written p x ≡ false }
{}

/// A channel end that the environment doesn't allow isn't used.
pub fn used_ends_are_allowed()
    ensures { (p : Tree) (Γ : Environment) → types_kept p Γ ≡ true → (c : ℕ) (d : Dir) → allows (Γ c) d ≡ false → uses_end p c d ≡ false }
{}

/// What isn't free is neither written nor used as a channel.
pub fn what_is_not_free_is_not_used()
    ensures { (p : Tree) (x : ℕ) → free p x ≡ false → (written p x ≡ false) × ((d : Dir) → uses_end p x d ≡ false) }
{}

/// A name in scope that isn't free in a well-typed part stands nowhere in it.
pub fn what_is_in_scope_is_not_declared_again()
    ensures { (p : Tree) (Γ : Environment) → types_kept p Γ ≡ true → (x : ℕ) → is_none (Γ x) ≡ false → free p x ≡ false → stands p x ≡ false }
{}

/// A name that stands nowhere in a part isn't free in it.
pub fn what_stands_nowhere_is_not_free()
    ensures { (p : Tree) (x : ℕ) → stands p x ≡ false → free p x ≡ false }
{}

/// A part does the same in two environments that differ at a name alone which isn't free in it: whether that name
/// is in scope, and as what, doesn't matter. The part is well typed in some environment; the law holds in each.
pub fn other_names_in_scope_do_not_matter()
    ensures { (Θ : Environment) (p : Tree) → types_kept p Θ ≡ true → (x : ℕ) → free p x ≡ false → (Γ Δ : Environment) →
        AgreeOff x Γ Δ → (s : Values) (t : Trace) (o : Outcome) → Does Γ p s t o ↔ Does Δ p s t o }
{}

/// A part does the same whatever a name holds that is no variable of it, and leaves that value as it is. The part
/// is well typed in some environment; the law holds in each.
pub fn other_values_do_not_matter()
    ensures { (Θ : Environment) (p : Tree) → types_kept p Θ ≡ true → (x : ℕ) → IsNoVariable Θ p x →
        (Γ : Environment) (s : Values) (v : ℕ) (t : Trace) (o : Outcome) → Does Γ p s t o →
        Does Γ p (with_value s x v) t (with_result x v o) }
{}

/// Whether two parts are the same doesn't depend on a name that is free in neither: on whether it is in scope, and
/// as what. Both are well typed in some environment.
pub fn same_whatever_other_names_are_in_scope()
    ensures { (p q : Tree) (Θ Ψ : Environment) → types_kept p Θ ≡ true → types_kept q Ψ ≡ true → (x : ℕ) → free p x ≡ false →
        free q x ≡ false → (Γ Δ : Environment) → AgreeOff x Γ Δ → SAME Γ p q → SAME Δ p q }
{}
