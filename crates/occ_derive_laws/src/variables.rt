//! The laws of declared variables, and which of them use no more than before.

ghost use Rattle.std.specs.Prelude.{◌≡◌, ◌++◌, ◌∷◌, ℕ, [], List, None, Some, false, true};
ghost use Rattle.occ_renamed.specs.occ_base.declared.names.Name.{Name};
ghost use Rattle.occ_renamed.specs.occ_base.declared.width.Width.{Width};
ghost use Rattle.occ_derive_moves.specs.Apart.{has_declared, some_declare};
ghost use Rattle.occ_derive_laws.specs.Passing.{MayPass};
ghost use Rattle.occ_renamed.specs.occ_law.Lists.{all_branches, assigned_without, assignment, conditions, values_without};
ghost use Rattle.occ_renamed.specs.occ_law.RuleTable.{LAW};
ghost use Rattle.occ_renamed.specs.occ_law.Scope.{each_branch_declaring, each_case_declaring, each_value, some_guard_names, values_of};
ghost use Rattle.occ_renamed.specs.occ_meaning.Parallel.{two};
ghost use Rattle.occ_renamed.specs.occ_meaning.Rename.{renamed, replacing, stands};
ghost use Rattle.occ_renamed.specs.occ_syntax.declared.scope.Kind.{Kind};
ghost use Rattle.occ_renamed.specs.occ_syntax.Names.{free, some_names};
ghost use Rattle.occ_renamed.specs.occ_syntax.Scopes.{environment, variable_width};
ghost use Rattle.occ_renamed.specs.occ_syntax.Tree.{Branches, Cases, Exp, Tree, Trees, alt, and_branch, and_tree, assign, connect, declare, input, par, select, seq, variable};
ghost use Rattle.occ_renamed.specs.occ_syntax.Types.{is_width, pairs_kept, type_of};
ghost use Rattle.occ_renamed.specs.occ_syntax.Usage.{Keeps};
ghost use Rattle.occ_renamed.specs.occ_usage.Local.{UsesNoMore};

/// var-unused: the declaration of a variable goes, where that isn't free.
pub fn unused_variables_go()
    ensures { (S : List (Name × Kind)) (x : ℕ) (w : Width) (p : Tree) → Keeps (environment S) (declare x w p) → free p x ≡ false
        → LAW 46 S (declare x w p) p }
{}

/// var-unused backward: a variable may be declared round a part in which its name stands nowhere.
pub fn unused_variables_come()
    ensures { (S : List (Name × Kind)) (x : ℕ) (w : Width) (p : Tree) → Keeps (environment S) p → environment S x ≡ None → is_width w ≡ true
        → stands p x ≡ false → LAW 46 S (declare x w p) p }
{}

/// var-rename: a declared variable takes a name that stands neither in its part nor in scope.
pub fn variables_are_renamed()
    ensures law { (S : List (Name × Kind)) (x y : ℕ) (w : Width) (p : Tree) → Keeps (environment S) (declare x w p) → stands p y ≡ false
        → environment S y ≡ None → LAW 47 S (declare x w p) (declare y w (renamed p (replacing x y))) }
    ensures sparing { (x y : ℕ) (w : Width) (p : Tree) → stands p y ≡ false
        → UsesNoMore (declare y w (renamed p (replacing x y))) (declare x w p) }
{}

/// var-swap backward: a variable that is declared next in a channel is declared round it.
pub fn variables_come_before_channels()
    ensures law { (S : List (Name × Kind)) (x c : ℕ) (v w : Width) (p : Tree) → Keeps (environment S) (connect c w (declare x v p))
        → LAW 48 S (declare x v (connect c w p)) (connect c w (declare x v p)) }
    ensures sparing { (x c : ℕ) (v w : Width) (p : Tree) → UsesNoMore (declare x v (connect c w p)) (connect c w (declare x v p)) }
{}

/// var-first backward: what is declared for the second part of a SEQ is declared for both, where the first part doesn't declare it.
pub fn variables_come_round_first_parts()
    ensures { (S : List (Name × Kind)) (x : ℕ) (w : Width) (p q : Tree) → Keeps (environment S) (seq (two p (declare x w q)))
        → has_declared p x ≡ false → LAW 49 S (declare x w (seq (two p q))) (seq (two p (declare x w q))) }
{}

/// var-last: what is declared for a SEQ is declared for its first part alone, where it isn't free in the second.
pub fn variables_end_before_last_parts()
    ensures { (S : List (Name × Kind)) (x : ℕ) (w : Width) (p q : Tree) → Keeps (environment S) (declare x w (seq (two p q)))
        → free q x ≡ false → LAW 50 S (declare x w (seq (two p q))) (seq (two (declare x w p) q)) }
{}

/// var-last backward: what is declared for the first part of a SEQ is declared for both, where the second part doesn't declare it.
pub fn variables_come_round_last_parts()
    ensures law { (S : List (Name × Kind)) (x : ℕ) (w : Width) (p q : Tree) → Keeps (environment S) (seq (two (declare x w p) q))
        → has_declared q x ≡ false → LAW 50 S (declare x w (seq (two p q))) (seq (two (declare x w p) q)) }
    ensures sparing { (x : ℕ) (w : Width) (p q : Tree) → UsesNoMore (declare x w (seq (two p q))) (seq (two (declare x w p) q)) }
{}

/// var-if: what is declared for an IF is declared in each choice, where no condition names it.
pub fn variables_go_into_choices()
    ensures { (S : List (Name × Kind)) (x : ℕ) (w : Width) (cs : Cases) → Keeps (environment S) (declare x w (select cs))
        → some_names (conditions cs) x ≡ false → LAW 51 S (declare x w (select cs)) (select (each_case_declaring x w cs)) }
{}

/// var-alt, its first form: what is declared for an ALT is declared in each branch, where no guard names it.
pub fn variables_go_into_branches()
    ensures { (S : List (Name × Kind)) (x : ℕ) (w : Width) (gs : Branches) → Keeps (environment S) (declare x w (alt gs))
        → some_guard_names gs x ≡ false → LAW 52 S (declare x w (alt gs)) (alt (each_branch_declaring x w gs)) }
{}

/// var-alt, its second form: an input goes into a declared variable first.
pub fn inputs_go_into_variables()
    ensures { (S : List (Name × Kind)) (z : ℕ) (w : Width) (gs hs : Branches) (b : Exp) (c x : ℕ) (p : Tree) → MayPass S z w gs hs b x p
        → let old = declare z w (alt (all_branches gs (and_branch b (input c x) p hs))) in
        let first = seq (two (assign (x ∷ []) (variable z ∷ [])) p) in
        let new = declare z w (alt (all_branches gs (and_branch b (input c z) first hs))) in
        Keeps (environment S) old → LAW 52 S old new }
{}

/// So it may where the variable isn't in scope yet, and the input's own has its width.
pub fn new_variables_may_be_passed()
    ensures { (S : List (Name × Kind)) (z : ℕ) (w : Width) (gs hs : Branches) (b : Exp) (c x : ℕ) (p : Tree) → environment S z ≡ None
        → variable_width (environment S) x ≡ Some w → Keeps (environment S) (alt (all_branches gs (and_branch b (input c x) p hs)))
        → MayPass S z w gs hs b x p }
{}

/// And backward: an input that goes into a declared variable first goes into its own at once.
pub fn inputs_go_at_once()
    ensures { (S : List (Name × Kind)) (z : ℕ) (w : Width) (gs hs : Branches) (b : Exp) (c x : ℕ) (p : Tree) → MayPass S z w gs hs b x p
        → let first = seq (two (assign (x ∷ []) (variable z ∷ [])) p) in
        let old = declare z w (alt (all_branches gs (and_branch b (input c z) first hs))) in
        let new = declare z w (alt (all_branches gs (and_branch b (input c x) p hs))) in
        Keeps (environment S) old → LAW 52 S new old }
{}

/// var-par backward: what is declared for the first part of a PAR is declared for all, where the others don't declare it.
pub fn variables_come_round_pars()
    ensures law { (S : List (Name × Kind)) (x : ℕ) (w : Width) (p : Tree) (qs : Trees) → Keeps (environment S) (par (and_tree (declare x w p) qs))
        → some_declare qs x ≡ false
        → LAW 53 S (declare x w (par (and_tree p qs))) (par (and_tree (declare x w p) qs)) }
    ensures sparing { (x : ℕ) (w : Width) (p : Tree) (qs : Trees)
        → UsesNoMore (declare x w (par (and_tree p qs))) (par (and_tree (declare x w p) qs)) }
{}

/// var-any: a declared variable begins with any of its values.
pub fn values_are_written_out()
    ensures { (S : List (Name × Kind)) (x : ℕ) (w : Width) (p : Tree) → Keeps (environment S) (declare x w p)
        → LAW 54 S (declare x w p) (alt (each_value x w p (values_of w))) }
{}

/// var-assign: a declared variable goes with what it is assigned, where no other right side names it.
pub fn pairs_go()
    ensures { (S : List (Name × Kind)) (x : ℕ) (w : Width) (ys : List ℕ) (fs : List Exp) → Keeps (environment S) (declare x w (assign ys fs))
        → some_names (values_without x ys fs) x ≡ false → LAW 55 S (declare x w (assign ys fs)) (assigned_without x ys fs) }
{}

/// var-assign backward: an assignment, or SKIP, becomes one to a new variable too, which is declared round it.
pub fn pairs_come()
    ensures { (S : List (Name × Kind)) (x : ℕ) (w : Width) (ys : List ℕ) (fs : List Exp) (e : Exp) → environment S x ≡ None
        → is_width w ≡ true → pairs_kept (environment S) ys fs ≡ true → type_of (environment S) e ≡ Some w
        → LAW 55 S (declare x w (assign (ys ++ x ∷ []) (fs ++ e ∷ []))) (assignment ys fs) }
{}

/// var-end: what a variable is assigned at the end of its scope goes.
pub fn last_pairs_go()
    ensures { (S : List (Name × Kind)) (x : ℕ) (w : Width) (p : Tree) (ys : List ℕ) (fs : List Exp)
        → Keeps (environment S) (declare x w (seq (two p (assign ys fs))))
        → LAW 56 S (declare x w (seq (two p (assign ys fs)))) (declare x w (seq (two p (assigned_without x ys fs)))) }
{}
