//! Other names for names.

ghost use Rattle.occ_syntax.specs.occ_base.declared.width.Width.{Width};
ghost use Rattle.occ_meaning.specs.Foundation.{Does};
ghost use Rattle.occ_meaning.specs.Rename.{exchanging, renamed, renamed_outcome, renamed_trace, replacing, stands, under};
ghost use Rattle.occ_syntax.specs.Meaning.{Outcome};
ghost use Rattle.occ_syntax.specs.Same.{SAME};
ghost use Rattle.occ_syntax.specs.Scopes.{Environment, Trace, Values, with_name};
ghost use Rattle.occ_syntax.specs.Tree.{Tree, connect, declare};
ghost use Rattle.occ_syntax.specs.Types.{types_kept};
ghost use Rattle.occ_syntax.specs.declared.scope.Kind.TheVariants.{Chan, Var};
ghost use Rattle.std.specs.Prelude.{None, false, true, ℕ, ◌==◌, ◌↔◌, ◌≡◌};

/// Where two names are exchanged in a part, it does under the exchanged names what it did before: in the
/// environment, the values, the traces, the refusals and the final states.
pub fn exchanged_names_keep_behaviour()
    ensures { (p : Tree) (a b : ℕ) (Γ : Environment) (s : Values) (t : Trace) (o : Outcome) →
        let f = exchanging a b in Does Γ p s t o ↔ Does (under f Γ) (renamed p f) (under f s) (renamed_trace f t) (renamed_outcome f o) }
{}

/// Exchanged names keep a part well typed, or not.
pub fn exchanged_names_keep_types()
    ensures { (p : Tree) (a b : ℕ) (Γ : Environment) → types_kept (renamed p (exchanging a b)) (under (exchanging a b) Γ) ≡ types_kept p Γ }
{}

/// To replace a name by one that stands nowhere in a part is to exchange the two.
pub fn replacing_by_a_new_name_is_exchanging()
    ensures { (old new : ℕ) (p : Tree) → stands p new ≡ false → renamed p (replacing old new) ≡ renamed p (exchanging old new) }
{}

/// Where a name is replaced by one that stands nowhere in a part, it does under the new name what it did before.
/// What the environment and the values said of either name, they then say of the other.
pub fn replaced_names_keep_behaviour()
    ensures { (p : Tree) (old new : ℕ) → stands p new ≡ false → (Γ : Environment) (s : Values) (t : Trace) (o : Outcome) →
        let f = exchanging old new in Does Γ p s t o ↔ Does (under f Γ) (renamed p (replacing old new)) (under f s) (renamed_trace f t) (renamed_outcome f o) }
{}

/// A part in which a name is replaced by one that stands nowhere in it is well typed exactly where it was, under
/// the new name.
pub fn replaced_names_keep_types()
    ensures { (p : Tree) (old new : ℕ) → stands p new ≡ false → (Γ : Environment) →
        types_kept (renamed p (replacing old new)) (under (exchanging old new) Γ) ≡ types_kept p Γ }
{}

/// To replace a name by itself changes nothing.
pub fn replacing_by_itself_changes_nothing()
    ensures { (x : ℕ) (p : Tree) → renamed p (replacing x x) ≡ p }
{}

/// A declared variable may have another name that isn't in scope and stands nowhere in its part.
pub fn variables_may_be_renamed()
    ensures { (Γ : Environment) (x y : ℕ) (w : Width) (p : Tree) → (x == y) ≡ false → Γ x ≡ None → Γ y ≡ None →
        types_kept p (with_name Γ x (Var w)) ≡ true → stands p y ≡ false →
        SAME Γ (declare x w p) (declare y w (renamed p (replacing x y))) }
{}

/// A declared channel may have another name that isn't in scope and stands nowhere in its part.
pub fn channels_may_be_renamed()
    ensures { (Γ : Environment) (x y : ℕ) (w : Width) (p : Tree) → (x == y) ≡ false → Γ x ≡ None → Γ y ≡ None →
        types_kept p (with_name Γ x (Chan w None)) ≡ true → stands p y ≡ false →
        SAME Γ (connect x w p) (connect y w (renamed p (replacing x y))) }
{}
