//! The laws of PAR, in the form in which a derivation uses them. All of them use no more than before. Here are the laws; there is no code.

ghost use Rattle.std.specs.Prelude.{◌≤◌, ℕ, List, true};
ghost use Rattle.occ_engine.specs.occ_base.declared.names.Name.{Name};
ghost use Rattle.occ_complete_states.specs.occ_derive_moves.Weight.{weight};
ghost use Rattle.occ_engine.specs.occ_law.Lists.{all_cases, conditions};
ghost use Rattle.occ_engine.specs.occ_law.Parallel.{each_case_beside, expanded};
ghost use Rattle.occ_engine.specs.occ_law.RuleTable.{LAW};
ghost use Rattle.occ_engine.specs.occ_law.States.{AreFew, IsExhaustive};
ghost use Rattle.occ_engine.specs.occ_meaning.Parallel.{one, two};
ghost use Rattle.occ_engine.specs.occ_syntax.declared.scope.Kind.{Kind};
ghost use Rattle.occ_engine.specs.occ_syntax.Scopes.{Environment, environment};
ghost use Rattle.occ_engine.specs.occ_syntax.Tree.{Branches, Cases, Exp, Tree, Trees, alt, and_case, and_tree, assign, no_case, no_tree, par, select, seq, skip, stop, truth};
ghost use Rattle.occ_engine.specs.occ_syntax.Usage.{Keeps};
ghost use Rattle.occ_engine.specs.occ_usage.Local.{UsesNoMore};

/// par-none: a PAR of no parts is SKIP.
pub fn pars_of_none_are_skip()
    ensures law { (S : List (Name × Kind)) → LAW 37 S (par no_tree) skip }
    ensures sparing { UsesNoMore skip (par no_tree) }
{}

/// par-one: a PAR of one part is that part.
pub fn pars_of_one_are_it()
    ensures law { (S : List (Name × Kind)) (p : Tree) → Keeps (environment S) (par (one p)) → LAW 38 S (par (one p)) p }
    ensures sparing { (p : Tree) → UsesNoMore p (par (one p)) }
{}

/// par-flat backward: all parts but the first become one.
pub fn others_become_one()
    ensures law { (S : List (Name × Kind)) (p : Tree) (qs : Trees) → Keeps (environment S) (par (and_tree p qs))
        → LAW 39 S (par (two p (par qs))) (par (and_tree p qs)) }
    ensures sparing { (p : Tree) (qs : Trees) → UsesNoMore (par (two p (par qs))) (par (and_tree p qs)) }
{}

/// par-order: two parts change places.
pub fn parts_change_places()
    ensures law { (S : List (Name × Kind)) (p q : Tree) → Keeps (environment S) (par (two p q))
        → LAW 40 S (par (two p q)) (par (two q p)) }
    ensures sparing { (p q : Tree) → UsesNoMore (par (two q p)) (par (two p q)) }
{}

/// par-skip: SKIP beside one part goes.
pub fn skip_leaves_pars()
    ensures first { (S : List (Name × Kind)) (q : Tree) → Keeps (environment S) (par (two skip q))
        → LAW 41 S (par (two skip q)) (par (one q)) }
    ensures first_sparing { (q : Tree) → UsesNoMore (par (one q)) (par (two skip q)) }
    ensures second { (S : List (Name × Kind)) (p : Tree) → Keeps (environment S) (par (two p skip))
        → LAW 41 S (par (two p skip)) (par (one p)) }
    ensures second_sparing { (p : Tree) → UsesNoMore (par (one p)) (par (two p skip)) }
{}

/// par-stop: STOP beside one part comes behind it.
pub fn stop_leaves_pars()
    ensures law { (S : List (Name × Kind)) (p : Tree) → Keeps (environment S) (par (two p stop))
        → LAW 42 S (par (two p stop)) (seq (two p stop)) }
    ensures sparing { (p : Tree) → UsesNoMore (seq (two p stop)) (par (two p stop)) }
{}

/// par-assign: an assignment with which the first part begins comes in front.
pub fn assignments_leave_pars()
    ensures law { (S : List (Name × Kind)) (xs : List ℕ) (es : List Exp) (ps : Trees) (q : Tree)
        → Keeps (environment S) (par (two (seq (and_tree (assign xs es) ps)) q))
        → LAW 43 S (par (two (seq (and_tree (assign xs es) ps)) q)) (seq (two (assign xs es) (par (two (seq ps) q)))) }
    ensures sparing { (xs : List ℕ) (es : List Exp) (ps : Trees) (q : Tree)
        → UsesNoMore (seq (two (assign xs es) (par (two (seq ps) q)))) (par (two (seq (and_tree (assign xs es) ps)) q)) }
{}

/// par-if: an IF as the first part chooses in front, where its conditions are few and one of them is true in every state.
pub fn choices_leave_pars()
    ensures law { (S : List (Name × Kind)) (cs : Cases) (q : Tree) → Keeps (environment S) (par (two (select cs) q)) → AreFew S (conditions cs)
        → IsExhaustive (environment S) (conditions cs)
        → LAW 44 S (par (two (select cs) q)) (select (each_case_beside cs q)) }
    ensures sparing { (cs : Cases) (q : Tree) → UsesNoMore (select (each_case_beside cs q)) (par (two (select cs) q)) }
{}

/// One of the conditions is true in every state, where the last one is TRUE.
pub fn choices_with_a_last_true_are_exhaustive()
    ensures { (Γ : Environment) (cs : Cases) (p : Tree) → IsExhaustive Γ (conditions (all_cases cs (and_case (truth true) p no_case))) }
{}

/// par-expand: two ALTs side by side are the ALT of all that they can do first.
pub fn alternatives_meet()
    ensures law { (S : List (Name × Kind)) (ls ms : Branches) → Keeps (environment S) (par (two (alt ls) (alt ms)))
        → LAW 45 S (par (two (alt ls) (alt ms))) (alt (expanded ls ms)) }
    ensures sparing { (ls ms : Branches) → UsesNoMore (alt (expanded ls ms)) (par (two (alt ls) (alt ms))) }
{}

/// And this ALT is no heavier.
pub fn expansions_are_no_heavier()
    ensures { (ls ms : Branches) → weight (alt (expanded ls ms)) ≤ weight (par (two (alt ls) (alt ms))) }
{}
