//! PAR: its parts in other groups and orders, and SKIP and STOP among them.

ghost use Rattle.occ_meaning.specs.Foundation.{IsFreeOf};
ghost use Rattle.occ_meaning.specs.Parallel.{EachWritesApart, Reordered, WriteApart, all_of, two};
ghost use Rattle.occ_syntax.specs.Same.{SAME};
ghost use Rattle.occ_syntax.specs.Scopes.{Environment};
ghost use Rattle.occ_syntax.specs.Tree.{Exp, Tree, Trees, and_tree, assign, par, seq, skip, stop};
ghost use Rattle.occ_syntax.specs.Types.{all_types_kept, types_kept};
ghost use Rattle.occ_syntax.specs.Usage.{AreSeparate, Keeps};
ghost use Rattle.std.specs.Prelude.{List, true, ℕ, ◌≡◌};

/// A PAR among the parts of a PAR gives its parts in its place. It holds of all parts.
pub fn par_in_par_is_flat()
    ensures { (Γ : Environment) (ps qs rs : Trees) → SAME Γ (par (all_of ps (and_tree (par qs) rs))) (par (all_of ps (all_of qs rs))) }
{}

/// PAR of two parts may be grouped either way.
pub fn par_is_associative()
    ensures { (Γ : Environment) (p q r : Tree) → SAME Γ (par (two (par (two p q)) r)) (par (two p (par (two q r)))) }
{}

/// SKIP among the parts of a PAR may be left out. It holds of all parts.
pub fn skip_in_par_is_nothing()
    ensures { (Γ : Environment) (ps qs : Trees) → SAME Γ (par (all_of ps (and_tree skip qs))) (par (all_of ps qs)) }
{}

/// A part beside STOP is that part followed by STOP.
pub fn par_with_stop_stops_at_its_end()
    ensures { (Γ : Environment) (p : Tree) → SAME Γ (par (two p stop)) (seq (two p stop)) }
{}

/// STOP beside a part is that part followed by STOP.
pub fn stop_with_a_part_stops_at_its_end()
    ensures { (Γ : Environment) (p : Tree) → SAME Γ (par (two stop p)) (seq (two p stop)) }
{}

/// An assignment at the beginning of one part may stand in front of the PAR, where the other part names none of its
/// variables.
pub fn assignments_may_leave_a_par()
    ensures { (Γ : Environment) (xs : List ℕ) (es : List Exp) (ps : Trees) (q : Tree) → types_kept q Γ ≡ true →
        IsFreeOf q xs →
        SAME Γ (par (two (seq (and_tree (assign xs es) ps)) q)) (seq (two (assign xs es) (par (two (seq ps) q)))) }
{}

/// Parts that keep the usage rule write no variable in common.
pub fn separate_parts_write_apart()
    ensures { (ps : Trees) → AreSeparate ps → EachWritesApart ps }
{}

/// Two well-typed parts that write no variable in common may change places.
pub fn two_parts_may_change_places()
    ensures { (Γ : Environment) (p q : Tree) → types_kept p Γ ≡ true → types_kept q Γ ≡ true → WriteApart p q → SAME Γ (par (two p q)) (par (two q p)) }
{}

/// Well-typed parts that write no variable in common may stand in any order.
pub fn parts_may_stand_in_any_order()
    ensures { (Γ : Environment) (ps qs : Trees) → Reordered ps qs → all_types_kept ps Γ ≡ true → EachWritesApart ps → SAME Γ (par ps) (par qs) }
{}

/// Parts that keep types and usage may stand in any order.
pub fn parts_that_keep_usage_may_stand_in_any_order()
    ensures { (Γ : Environment) (ps qs : Trees) → Reordered ps qs → Keeps Γ (par ps) → SAME Γ (par ps) (par qs) }
{}
