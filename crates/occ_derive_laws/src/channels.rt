//! The laws of declared channels. All of them use no more than before.

ghost use Rattle.std.specs.Prelude.{◌≡◌, ℕ, List, None, false};
ghost use Rattle.occ_renamed.specs.occ_base.declared.names.Name.{Name};
ghost use Rattle.occ_renamed.specs.occ_base.declared.width.Width.{Width};
ghost use Rattle.occ_renamed.specs.occ_law.RuleTable.{LAW};
ghost use Rattle.occ_renamed.specs.occ_law.Scope.{each_case_connecting, without_channel};
ghost use Rattle.occ_renamed.specs.occ_meaning.Parallel.{two};
ghost use Rattle.occ_renamed.specs.occ_meaning.Rename.{renamed, replacing, stands};
ghost use Rattle.occ_renamed.specs.occ_syntax.declared.scope.Kind.{Kind};
ghost use Rattle.occ_renamed.specs.occ_syntax.Names.{free};
ghost use Rattle.occ_renamed.specs.occ_syntax.Scopes.{Environment, environment};
ghost use Rattle.occ_renamed.specs.occ_syntax.Tree.{Branches, Cases, Exp, Tree, alt, assign, connect, select, seq};
ghost use Rattle.occ_renamed.specs.occ_syntax.Usage.{Keeps};
ghost use Rattle.occ_renamed.specs.occ_usage.Local.{UsesNoMore};

/// chan-unused: the declaration of a channel goes, where that isn't free.
pub fn unused_channels_go()
    ensures law { (S : List (Name × Kind)) (c : ℕ) (w : Width) (p : Tree) → Keeps (environment S) (connect c w p) → free p c ≡ false
        → LAW 57 S (connect c w p) p }
    ensures sparing { (c : ℕ) (w : Width) (p : Tree) → free p c ≡ false → UsesNoMore p (connect c w p) }
{}

/// A channel isn't free in an assignment.
pub fn channels_are_not_free_in_assignments()
    ensures { (Γ : Environment) (c : ℕ) (w : Width) (xs : List ℕ) (es : List Exp) → Keeps Γ (connect c w (assign xs es))
        → free (assign xs es) c ≡ false }
{}

/// chan-rename: a declared channel takes a name that stands neither in its part nor in scope.
pub fn channels_are_renamed()
    ensures law { (S : List (Name × Kind)) (c d : ℕ) (w : Width) (p : Tree) → Keeps (environment S) (connect c w p) → stands p d ≡ false
        → environment S d ≡ None → LAW 58 S (connect c w p) (connect d w (renamed p (replacing c d))) }
    ensures sparing { (c d : ℕ) (w : Width) (p : Tree) → stands p d ≡ false
        → UsesNoMore (connect d w (renamed p (replacing c d))) (connect c w p) }
{}

/// chan-seq: what is declared for a SEQ of two parts is declared for each of them.
pub fn channels_go_into_two()
    ensures law { (S : List (Name × Kind)) (c : ℕ) (w : Width) (p q : Tree) → Keeps (environment S) (connect c w (seq (two p q)))
        → LAW 60 S (connect c w (seq (two p q))) (seq (two (connect c w p) (connect c w q))) }
    ensures sparing { (c : ℕ) (w : Width) (p q : Tree)
        → UsesNoMore (seq (two (connect c w p) (connect c w q))) (connect c w (seq (two p q))) }
{}

/// chan-if: what is declared for an IF is declared in each choice.
pub fn channels_go_into_choices()
    ensures law { (S : List (Name × Kind)) (c : ℕ) (w : Width) (cs : Cases) → Keeps (environment S) (connect c w (select cs))
        → LAW 61 S (connect c w (select cs)) (select (each_case_connecting c w cs)) }
    ensures sparing { (Γ : Environment) (c : ℕ) (w : Width) (cs : Cases) → Keeps Γ (connect c w (select cs))
        → UsesNoMore (select (each_case_connecting c w cs)) (connect c w (select cs)) }
{}

/// chan-alt: what is declared for an ALT is declared in each branch, without the branches that wait for it.
pub fn channels_go_into_branches()
    ensures law { (S : List (Name × Kind)) (c : ℕ) (w : Width) (gs : Branches) → Keeps (environment S) (connect c w (alt gs))
        → LAW 62 S (connect c w (alt gs)) (alt (without_channel c w gs)) }
    ensures sparing { (Γ : Environment) (c : ℕ) (w : Width) (gs : Branches) → Keeps Γ (connect c w (alt gs))
        → UsesNoMore (alt (without_channel c w gs)) (connect c w (alt gs)) }
{}
