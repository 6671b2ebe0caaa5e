//! Declared names: left out where they are not used, exchanged, and moved past parts that do not have them.

ghost use Rattle.occ_syntax.specs.occ_base.declared.width.Width.{Width};
ghost use Rattle.occ_meaning.specs.Parallel.{two};
ghost use Rattle.occ_syntax.specs.Names.{free, free_in_some};
ghost use Rattle.occ_syntax.specs.Same.{SAME};
ghost use Rattle.occ_syntax.specs.Scopes.{Environment};
ghost use Rattle.occ_syntax.specs.Tree.{Tree, Trees, and_tree, connect, declare, par, seq};
ghost use Rattle.occ_syntax.specs.Types.{all_types_kept, types_kept};
ghost use Rattle.std.specs.Prelude.{None, false, true, ℕ, ◌==◌, ◌≡◌};

/// A declared variable that isn't free in its part may be left out. The part is well typed in some environment.
pub fn unused_variables_may_be_left_out()
    ensures { (Γ : Environment) (x : ℕ) (w : Width) (p : Tree) (Θ : Environment) → types_kept p Θ ≡ true → free p x ≡ false → SAME Γ (declare x w p) p }
{}

/// A declared channel that isn't free in its part may be left out. The part is well typed in some environment.
pub fn unused_channels_may_be_left_out()
    ensures { (Γ : Environment) (c : ℕ) (w : Width) (p : Tree) (Θ : Environment) → types_kept p Θ ≡ true → free p c ≡ false → SAME Γ (connect c w p) p }
{}

/// The declarations of two variables may change places. It holds of every part.
pub fn two_variables_may_change_places()
    ensures { (Γ : Environment) (x y : ℕ) (w v : Width) (p : Tree) → (x == y) ≡ false → SAME Γ (declare x w (declare y v p)) (declare y v (declare x w p)) }
{}

/// The declarations of two channels may change places. It holds of every part.
pub fn two_channels_may_change_places()
    ensures { (Γ : Environment) (c b : ℕ) (w v : Width) (p : Tree) → (c == b) ≡ false → SAME Γ (connect c w (connect b v p)) (connect b v (connect c w p)) }
{}

/// The declarations of a variable and a channel may change places. It holds of every part.
pub fn a_variable_and_a_channel_may_change_places()
    ensures { (Γ : Environment) (x c : ℕ) (w v : Width) (p : Tree) → (x == c) ≡ false → SAME Γ (declare x w (connect c v p)) (connect c v (declare x w p)) }
{}

/// A variable that isn't free in the first of two parts may be declared behind it. That part is well typed in some
/// environment.
pub fn variables_may_be_declared_behind_a_part()
    ensures { (Γ : Environment) (x : ℕ) (w : Width) (p q : Tree) (Θ : Environment) → types_kept p Θ ≡ true →
        free p x ≡ false → SAME Γ (declare x w (seq (two p q))) (seq (two p (declare x w q))) }
{}

/// A variable that isn't free in the second of two parts may be declared for the first alone. The second part is
/// well typed in some environment.
pub fn variables_may_end_before_a_part()
    ensures { (Γ : Environment) (x : ℕ) (w : Width) (p q : Tree) (Θ : Environment) → types_kept q Θ ≡ true →
        free q x ≡ false → SAME Γ (declare x w (seq (two p q))) (seq (two (declare x w p) q)) }
{}

/// A channel may be declared for each of two parts that follow one another. It holds of every part.
pub fn channels_may_be_declared_for_each_part()
    ensures { (Γ : Environment) (c : ℕ) (w : Width) (p q : Tree) → SAME Γ (connect c w (seq (two p q))) (seq (two (connect c w p) (connect c w q))) }
{}

/// A variable that isn't free in the other parts of a PAR may be declared for one alone. It isn't in scope, and the
/// other parts are well typed in some environment.
pub fn variables_may_be_declared_for_one_part_of_a_par()
    ensures { (Γ : Environment) (x : ℕ) (w : Width) (p : Tree) (qs : Trees) (Θ : Environment) → Γ x ≡ None →
        all_types_kept qs Θ ≡ true → free_in_some qs x ≡ false →
        SAME Γ (declare x w (par (and_tree p qs))) (par (and_tree (declare x w p) qs)) }
{}

/// A channel that isn't free in the other parts of a PAR may be declared for one alone. The other parts are well
/// typed in some environment.
pub fn channels_may_be_declared_for_one_part_of_a_par()
    ensures { (Γ : Environment) (c : ℕ) (w : Width) (p : Tree) (qs : Trees) (Θ : Environment) → all_types_kept qs Θ ≡ true →
        free_in_some qs c ≡ false → SAME Γ (connect c w (par (and_tree p qs))) (par (and_tree (connect c w p) qs)) }
{}
