//! SAME is an equivalence, and is kept in every context.

ghost use Rattle.occ_syntax.specs.occ_base.declared.width.Width.{Width};
ghost use Rattle.occ_meaning.specs.Context.{EachBranchSame, EachChoiceSame, EachSame, environment_at, part_at, put};
ghost use Rattle.occ_meaning.specs.Foundation.{SameOverInterface};
ghost use Rattle.occ_syntax.specs.Same.{HasTrace, SAME};
ghost use Rattle.occ_syntax.specs.Scopes.{Environment, IsState, Trace, Values, with_name};
ghost use Rattle.occ_syntax.specs.Tree.{Branches, Cases, Tree, Trees, alt, connect, declare, par, select, seq};
ghost use Rattle.occ_syntax.specs.Types.{all_types_kept, branches_kept, types_kept};
ghost use Rattle.occ_syntax.specs.declared.scope.Kind.TheVariants.{Chan, Var};
ghost use Rattle.std.specs.Prelude.{List, None, Some, true, ℕ, ◌↔◌, ◌≡◌};

/// SAME is reflexive.
pub fn a_part_is_the_same_as_itself()
    ensures { (Γ : Environment) (p : Tree) → SAME Γ p p }
{}

/// SAME is symmetric.
pub fn same_both_ways()
    ensures { (Γ : Environment) (p q : Tree) → SAME Γ p q → SAME Γ q p }
{}

/// SAME is transitive.
pub fn same_through_a_third()
    ensures { (Γ : Environment) (p q r : Tree) → SAME Γ p q → SAME Γ q r → SAME Γ p r }
{}

/// Two parts that are the same have the same traces from every state.
pub fn same_parts_have_the_same_traces()
    ensures { (Γ : Environment) (p q : Tree) → SAME Γ p q → (s : Values) (t : Trace) → IsState Γ s → HasTrace Γ p s t ↔ HasTrace Γ q s t }
{}

/// Two well-typed parts are the same where they have the same ends, and the same failures with sets of events of
/// the interface.
pub fn same_over_the_interface()
    ensures { (Γ : Environment) (p q : Tree) → types_kept p Γ ≡ true → types_kept q Γ ≡ true → SameOverInterface Γ p q → SAME Γ p q }
{}

/// SEQ of parts that are the same one by one. The parts on one side are well typed.
pub fn seq_of_same_parts()
    ensures { (Γ : Environment) (ps qs : Trees) → all_types_kept ps Γ ≡ true → EachSame Γ ps qs → SAME Γ (seq ps) (seq qs) }
{}

/// PAR of parts that are the same one by one.
pub fn par_of_same_parts()
    ensures { (Γ : Environment) (ps qs : Trees) → EachSame Γ ps qs → SAME Γ (par ps) (par qs) }
{}

/// IF whose processes are the same one by one, under the same conditions.
pub fn if_of_same_processes()
    ensures { (Γ : Environment) (cs ds : Cases) → EachChoiceSame Γ cs ds → SAME Γ (select cs) (select ds) }
{}

/// ALT whose processes are the same one by one, behind the same guards. One side is well typed.
pub fn alt_of_same_processes()
    ensures { (Γ : Environment) (bs ds : Branches) → branches_kept bs Γ ≡ true → EachBranchSame Γ bs ds → SAME Γ (alt bs) (alt ds) }
{}

/// Parts that are the same in the scope of a variable, under its declaration.
pub fn same_under_a_variable()
    ensures { (Γ : Environment) (x : ℕ) (w : Width) (p q : Tree) → Γ x ≡ None → SAME (with_name Γ x (Var w)) p q → SAME Γ (declare x w p) (declare x w q) }
{}

/// Parts that are the same in the scope of a channel, under its declaration.
pub fn same_under_a_channel()
    ensures { (Γ : Environment) (c : ℕ) (w : Width) (p q : Tree) → SAME (with_name Γ c (Chan w None)) p q → SAME Γ (connect c w p) (connect c w q) }
{}

/// Where the part at a path is the same as another in the environment there, the whole is the same with that one
/// put in.
pub fn same_parts_may_be_put_in()
    ensures { (path : List ℕ) (Γ : Environment) (p q r : Tree) → types_kept p Γ ≡ true → part_at path p ≡ Some q →
        SAME (environment_at path Γ p) q r → SAME Γ p (put path p r) }
{}

/// After a part is put in at a path, it is the part there, in the environment that was there before.
pub fn what_is_put_in_is_there()
    ensures { (path : List ℕ) (Γ : Environment) (p q r : Tree) → part_at path p ≡ Some q →
        (part_at path (put path p r) ≡ Some r) × (environment_at path Γ (put path p r) ≡ environment_at path Γ p) }
{}

/// A part that is well typed in the environment at a path may be put in there: the whole stays well typed.
pub fn typed_parts_may_be_put_in()
    ensures { (path : List ℕ) (Γ : Environment) (p q r : Tree) → types_kept p Γ ≡ true → part_at path p ≡ Some q →
        types_kept r (environment_at path Γ p) ≡ true → types_kept (put path p r) Γ ≡ true }
{}
