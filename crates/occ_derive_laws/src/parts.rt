//! The laws that move parts of a SEQ.

ghost use Rattle.std.specs.Prelude.{List};
ghost use Rattle.occ_renamed.specs.occ_base.declared.names.Name.{Name};
ghost use Rattle.occ_renamed.specs.occ_law.Sequence.{each_branch_before, each_case_before};
ghost use Rattle.occ_renamed.specs.occ_law.RuleTable.{LAW};
ghost use Rattle.occ_renamed.specs.occ_meaning.Parallel.{all_of, one};
ghost use Rattle.occ_renamed.specs.occ_syntax.declared.scope.Kind.{Kind};
ghost use Rattle.occ_renamed.specs.occ_syntax.Scopes.{environment};
ghost use Rattle.occ_renamed.specs.occ_syntax.Tree.{Branches, Cases, Tree, Trees, alt, and_tree, no_tree, select, seq, skip, stop};
ghost use Rattle.occ_renamed.specs.occ_syntax.Usage.{Keeps};
ghost use Rattle.occ_renamed.specs.occ_usage.Local.{UsesNoMore};

/// SEQ() is SKIP.
pub fn seq_none_joins()
    ensures law { (S : List (Name × Kind)) → LAW 1 S (seq no_tree) skip }
    ensures sparing { UsesNoMore skip (seq no_tree) }
{}

/// SEQ(P) is P.
pub fn seq_one_joins()
    ensures forward { (S : List (Name × Kind)) (p : Tree) → Keeps (environment S) (seq (one p)) → LAW 2 S (seq (one p)) p }
    ensures backward { (S : List (Name × Kind)) (p : Tree) → Keeps (environment S) p → LAW 2 S (seq (one p)) p }
    ensures sparing { (p : Tree) → UsesNoMore p (seq (one p)) }
    ensures sparing_back { (p : Tree) → UsesNoMore (seq (one p)) p }
{}

/// A SEQ among the parts of a SEQ gives its parts in its place.
pub fn seq_flat_joins()
    ensures forward { (S : List (Name × Kind)) (ps qs rs : Trees) → Keeps (environment S) (seq (all_of ps (and_tree (seq qs) rs)))
        → LAW 3 S (seq (all_of ps (and_tree (seq qs) rs))) (seq (all_of ps (all_of qs rs))) }
    ensures backward { (S : List (Name × Kind)) (ps qs rs : Trees) → Keeps (environment S) (seq (all_of ps (all_of qs rs)))
        → LAW 3 S (seq (all_of ps (and_tree (seq qs) rs))) (seq (all_of ps (all_of qs rs))) }
    ensures sparing { (ps qs rs : Trees) → UsesNoMore (seq (all_of ps (all_of qs rs))) (seq (all_of ps (and_tree (seq qs) rs))) }
    ensures sparing_back { (ps qs rs : Trees) → UsesNoMore (seq (all_of ps (and_tree (seq qs) rs))) (seq (all_of ps (all_of qs rs))) }
{}

/// The last parts of a SEQ as one SEQ, or a SEQ that is the last part as its parts.
pub fn seq_flat_joins_last()
    ensures forward { (S : List (Name × Kind)) (ps qs : Trees) → Keeps (environment S) (seq (all_of ps (one (seq qs))))
        → LAW 3 S (seq (all_of ps (one (seq qs)))) (seq (all_of ps qs)) }
    ensures backward { (S : List (Name × Kind)) (ps qs : Trees) → Keeps (environment S) (seq (all_of ps qs))
        → LAW 3 S (seq (all_of ps (one (seq qs)))) (seq (all_of ps qs)) }
    ensures sparing_back { (ps qs : Trees) → UsesNoMore (seq (all_of ps (one (seq qs)))) (seq (all_of ps qs)) }
{}

/// SKIP among the parts goes, or comes in.
pub fn seq_skip_joins()
    ensures forward { (S : List (Name × Kind)) (ps qs : Trees) → Keeps (environment S) (seq (all_of ps (and_tree skip qs)))
        → LAW 4 S (seq (all_of ps (and_tree skip qs))) (seq (all_of ps qs)) }
    ensures backward { (S : List (Name × Kind)) (ps qs : Trees) → Keeps (environment S) (seq (all_of ps qs))
        → LAW 4 S (seq (all_of ps (and_tree skip qs))) (seq (all_of ps qs)) }
    ensures sparing { (ps qs : Trees) → UsesNoMore (seq (all_of ps qs)) (seq (all_of ps (and_tree skip qs))) }
{}

/// What stands behind STOP goes.
pub fn seq_stop_joins()
    ensures forward { (S : List (Name × Kind)) (ps qs : Trees) → Keeps (environment S) (seq (all_of ps (and_tree stop qs)))
        → LAW 5 S (seq (all_of ps (and_tree stop qs))) (seq (all_of ps (one stop))) }
    ensures sparing { (ps qs : Trees) → UsesNoMore (seq (all_of ps (one stop))) (seq (all_of ps (and_tree stop qs))) }
{}

/// What follows an IF goes into its choices, or out of them: an IF may have no choice, so what goes out is said to keep the rules.
pub fn seq_if_joins()
    ensures forward { (S : List (Name × Kind)) (cs : Cases) (qs : Trees) → Keeps (environment S) (seq (and_tree (select cs) qs))
        → LAW 12 S (seq (and_tree (select cs) qs)) (select (each_case_before cs qs)) }
    ensures backward { (S : List (Name × Kind)) (cs : Cases) (qs : Trees) → Keeps (environment S) (select (each_case_before cs qs))
        → Keeps (environment S) (seq qs) → LAW 12 S (seq (and_tree (select cs) qs)) (select (each_case_before cs qs)) }
    ensures sparing { (cs : Cases) (qs : Trees) → UsesNoMore (select (each_case_before cs qs)) (seq (and_tree (select cs) qs)) }
{}

/// What follows an ALT goes into its branches, or out of them.
pub fn seq_alt_joins()
    ensures forward { (S : List (Name × Kind)) (gs : Branches) (qs : Trees) → Keeps (environment S) (seq (and_tree (alt gs) qs))
        → LAW 13 S (seq (and_tree (alt gs) qs)) (alt (each_branch_before gs qs)) }
    ensures backward { (S : List (Name × Kind)) (gs : Branches) (qs : Trees) → Keeps (environment S) (alt (each_branch_before gs qs))
        → Keeps (environment S) (seq qs) → LAW 13 S (seq (and_tree (alt gs) qs)) (alt (each_branch_before gs qs)) }
    ensures sparing { (gs : Branches) (qs : Trees) → UsesNoMore (alt (each_branch_before gs qs)) (seq (and_tree (alt gs) qs)) }
{}
