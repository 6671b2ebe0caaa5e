//! Instances of laws, and what is none.

ghost use Rattle.std.specs.Prelude.{◌≡◌, [], ◌∷◌, List, ℕ, true, false};
ghost use Rattle.occ_bits.specs.occ_base.declared.names.Name.{Name};
ghost use Rattle.occ_bits.specs.occ_syntax.declared.scope.Kind.{Kind};
ghost use Rattle.occ_bits.specs.occ_syntax.Tree.{Tree, variable, truth, input, skip, stop, assign, seq, select, alt, no_tree, and_tree, no_case, and_case, no_branch, and_branch};
ghost use Rattle.occ_bits.specs.occ_meaning.Parallel.{two};
ghost use Rattle.occ_law.specs.Sequence.{AssignAlt};
ghost use Rattle.occ_law.specs.RuleTable.{IsDirect, LAW};

/// SEQ without parts is SKIP, by seq-none.
pub fn empty_seq_is_skip()
    ensures { (S : List (Name × Kind)) → LAW 1 S (seq no_tree) skip }
{}

/// It isn't STOP by that law.
pub fn empty_seq_is_not_stop()
    ensures { (S : List (Name × Kind)) → LAW 1 S (seq no_tree) stop → ⊥ }
{}

/// A last choice TRUE STOP leaves, by if-else-stop.
pub fn a_last_stop_leaves()
    ensures { (S : List (Name × Kind)) → LAW 19 S (select (and_case (truth false) skip (and_case (truth true) stop no_case))) (select (and_case (truth false) skip no_case)) }
{}

/// Of two SKIPs seq-skip takes the first.
pub fn a_skip_leaves_first()
    ensures { (S : List (Name × Kind)) → IsDirect 4 S (seq (and_tree skip (and_tree stop (and_tree skip no_tree)))) (seq (and_tree stop (and_tree skip no_tree))) }
{}

/// assign-alt has no instance where x is read by a right side that goes behind an input into x.
pub fn a_kept_right_side_names_the_input()
    ensures { (c x y : ℕ) (place : List ℕ) (r : Tree) → (x ≡ y → ⊥) → AssignAlt place
        (seq (two (assign (y ∷ []) (variable x ∷ [])) (alt (and_branch (truth true) (input c x) skip no_branch)))) r → ⊥ }
{}

/// A list without conditions is exhaustive nowhere: if-cut takes no choices from IF without choices.
pub fn no_condition_cuts_nothing()
    ensures { LAW 20 [] (select no_case) (select no_case) → ⊥ }
{}
