//! Laws don't rest on how names are called: what a law joins, it joins under other names too, each name for one.
//! Each law here is the contract of a function that does nothing.

ghost use Rattle.std.specs.Prelude.{ℕ, List};
ghost use Rattle.occ_replay_rules.specs.occ_base.declared.names.Name.{Name};
ghost use Rattle.occ_renamed.specs.Scopes.{scope_renamed};
ghost use Rattle.occ_replay_rules.specs.occ_law.RuleTable.{LAW};
ghost use Rattle.occ_replay_rules.specs.occ_meaning.Rename.{exchanging, renamed, under};
ghost use Rattle.occ_replay_rules.specs.occ_syntax.Scopes.{Environment};
ghost use Rattle.occ_replay_rules.specs.occ_syntax.Tree.{Tree};
ghost use Rattle.occ_replay_rules.specs.occ_syntax.Usage.{Keeps};
ghost use Rattle.occ_replay_rules.specs.occ_syntax.declared.scope.Kind.{Kind};

/// Where two names are exchanged in a part and in its environment, it keeps names, types, directions and usage as before.
pub fn exchanged_names_keep_the_rules()
    ensures { (Γ : Environment) (p : Tree) (a b : ℕ) → Keeps Γ p → Keeps (under (exchanging a b) Γ) (renamed p (exchanging a b)) }
{}

/// A law that joins two parts of a scope joins them where two names are exchanged in all three.
pub fn laws_hold_under_exchanged_names()
    ensures { (n : ℕ) (S : List (Name × Kind)) (l r : Tree) (a b : ℕ) → LAW n S l r
        → LAW n (scope_renamed (exchanging a b) S) (renamed l (exchanging a b)) (renamed r (exchanging a b)) }
{}
