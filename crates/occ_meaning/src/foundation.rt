//! What every well-typed part keeps: values within their widths, states, and the values of what it does not write.

ghost use Rattle.occ_syntax.specs.occ_base.Width.{bits_of};
ghost use Rattle.occ_syntax.specs.occ_base.declared.width.Width.{Width};
ghost use Rattle.occ_meaning.specs.Context.{environment_at, part_at};
ghost use Rattle.occ_meaning.specs.Foundation.{AgreeOn, ValuesAgreeOn};
ghost use Rattle.occ_syntax.specs.Eval.{eval, is_true, one_if};
ghost use Rattle.occ_syntax.specs.Meaning.{ends};
ghost use Rattle.occ_syntax.specs.Names.{written};
ghost use Rattle.occ_syntax.specs.Scopes.{Environment, IsState, Trace, Values};
ghost use Rattle.occ_syntax.specs.Tree.{Exp, Tree, negation, operation};
ghost use Rattle.occ_syntax.specs.Types.{is_condition, type_of, types_kept};
ghost use Rattle.occ_syntax.specs.Usage.{Keeps};
ghost use Rattle.occ_syntax.specs.declared.expr.Op.TheVariants.{And, Or};
ghost use Rattle.std.specs.Prelude.{List, Some, false, not, true, ℕ, ◌&&◌, ◌<◌, ◌^◌, ◌||◌, ◌≡◌};

/// The value of a typed expression in a state is below two to the width of its type.
pub fn evaluation_stays_below()
    ensures { (Γ : Environment) (s : Values) → IsState Γ s → (e : Exp) (w : Width) → type_of Γ e ≡ Some w → eval Γ e s < 2 ^ bits_of w }
{}

/// An expression has one value wherever the environments and the values agree on the names that stand in it.
pub fn expressions_depend_on_their_names_alone()
    ensures { (Γ Δ : Environment) (s r : Values) (e : Exp) → AgreeOn e Γ Δ → ValuesAgreeOn e s r → eval Γ e s ≡ eval Δ e r }
{}

/// The value of a condition in a state is 1 where it is true, and otherwise 0.
pub fn conditions_are_zero_or_one()
    ensures { (Γ : Environment) (s : Values) → IsState Γ s → (e : Exp) → is_condition Γ e ≡ true → eval Γ e s ≡ one_if (is_true Γ e s) }
{}

/// NOT of a condition is true in a state exactly where the condition is not.
pub fn conditions_are_negated()
    ensures { (Γ : Environment) (s : Values) → IsState Γ s → (e : Exp) → is_condition Γ e ≡ true → is_true Γ (negation e) s ≡ not (is_true Γ e s) }
{}

/// AND of two conditions is true in a state exactly where both are.
pub fn conditions_are_joined_by_and()
    ensures { (Γ : Environment) (s : Values) → IsState Γ s → (e f : Exp) → is_condition Γ e ≡ true → is_condition Γ f ≡ true →
        is_true Γ (operation And e f) s ≡ (is_true Γ e s && is_true Γ f s) }
{}

/// OR of two conditions is true in a state exactly where one of them is.
pub fn conditions_are_joined_by_or()
    ensures { (Γ : Environment) (s : Values) → IsState Γ s → (e f : Exp) → is_condition Γ e ≡ true → is_condition Γ f ≡ true →
        is_true Γ (operation Or e f) s ≡ (is_true Γ e s || is_true Γ f s) }
{}

/// The values that are all 0 are a state of every environment.
pub fn every_environment_has_a_state()
    ensures { (Γ : Environment) → IsState Γ (λ x. 0) }
{}

/// From a state a well-typed part ends in states alone.
pub fn typed_parts_take_states_to_states()
    ensures { (Γ : Environment) (p : Tree) → types_kept p Γ ≡ true → (s : Values) (t : Trace) (s' : Values) → IsState Γ s → ends Γ p s t s' → IsState Γ s' }
{}

/// A variable that a part doesn't write has its old value at each end. The part is well typed in some environment;
/// the law holds in each.
pub fn unwritten_variables_keep_their_values()
    ensures { (Θ : Environment) (p : Tree) → types_kept p Θ ≡ true → (x : ℕ) → written p x ≡ false →
        (Γ : Environment) (s : Values) (t : Trace) (s' : Values) → ends Γ p s t s' → s' x ≡ s x }
{}

/// The part at a path of a well-typed part is well typed in the environment there.
pub fn parts_of_typed_parts_are_typed()
    ensures { (path : List ℕ) (Γ : Environment) (p q : Tree) → types_kept p Γ ≡ true → part_at path p ≡ Some q →
        types_kept q (environment_at path Γ p) ≡ true }
{}

/// The part at a path of a part that keeps types and usage keeps them in the environment there.
pub fn parts_of_parts_that_keep_the_rules_keep_them()
    ensures { (path : List ℕ) (Γ : Environment) (p q : Tree) → Keeps Γ p → part_at path p ≡ Some q → Keeps (environment_at path Γ p) q }
{}
