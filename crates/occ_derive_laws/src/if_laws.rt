//! The laws of IF hold where the side that is there keeps names, types, directions and usage.

ghost use Rattle.std.specs.Prelude.{◌≡◌, ℕ, List, None, false, true};
ghost use Rattle.occ_renamed.specs.occ_base.declared.names.Name.{Name};
ghost use Rattle.occ_renamed.specs.occ_bits.Named.{are_conditions};
ghost use Rattle.occ_renamed.specs.occ_law.Choice.{copies, each_case_under};
ghost use Rattle.occ_renamed.specs.occ_law.Lists.{all_cases, conditions};
ghost use Rattle.occ_renamed.specs.occ_law.States.{AreFew, EachEqual, IsEqualWhere, IsExhaustive};
ghost use Rattle.occ_renamed.specs.occ_law.RuleTable.{LAW};
ghost use Rattle.occ_renamed.specs.occ_syntax.declared.scope.Kind.{Kind};
ghost use Rattle.occ_renamed.specs.occ_syntax.Eval.{is_true};
ghost use Rattle.occ_renamed.specs.occ_syntax.Names.{names};
ghost use Rattle.occ_renamed.specs.occ_syntax.Scopes.{environment};
ghost use Rattle.occ_renamed.specs.occ_syntax.Tree.{Cases, Exp, Tree, and_case, assign, no_case, select, stop, truth};
ghost use Rattle.occ_renamed.specs.occ_syntax.Usage.{Keeps};
ghost use Rattle.occ_renamed.specs.occ_usage.Local.{UsesNoMore};

/// A choice goes whose condition names nothing and is FALSE.
pub fn if_false_holds()
    ensures { (S : List (Name × Kind)) (cs ds : Cases) (b : Exp) (p : Tree) → ((x : ℕ) → names b x ≡ false)
        → is_true (λ x. None) b (λ x. 0) ≡ false → let left = select (all_cases cs (and_case b p ds)) in Keeps (environment S) left
        → LAW 17 S left (select (all_cases cs ds)) }
{}

/// The first choice stands alone where its condition names nothing and is TRUE.
pub fn if_true_holds()
    ensures { (S : List (Name × Kind)) (b : Exp) (p : Tree) (ds : Cases) → ((x : ℕ) → names b x ≡ false)
        → is_true (λ x. None) b (λ x. 0) ≡ true → Keeps (environment S) (select (and_case b p ds))
        → LAW 18 S (select (and_case b p ds)) p }
{}

/// A last choice comes, which stops.
pub fn if_else_stop_holds()
    ensures { (S : List (Name × Kind)) (cs : Cases) → Keeps (environment S) (select cs)
        → LAW 19 S (select (all_cases cs (and_case (truth true) stop no_case))) (select cs) }
{}

/// With it the IF names, writes and uses no more.
pub fn if_else_stop_spares()
    ensures { (cs : Cases) → UsesNoMore (select (all_cases cs (and_case (truth true) stop no_case))) (select cs) }
{}

/// The choices go that stand behind some of which in every state one is taken.
pub fn if_cut_holds()
    ensures { (S : List (Name × Kind)) (cs ds : Cases) → AreFew S (conditions cs) → IsExhaustive (environment S) (conditions cs)
        → let left = select (all_cases cs ds) in Keeps (environment S) left → LAW 20 S left (select cs) }
{}

/// The choices of an IF that is itself a choice.
pub fn if_nest_holds()
    ensures { (S : List (Name × Kind)) (cs es ds : Cases) (b : Exp)
        → let left = select (all_cases cs (and_case b (select es) ds)) in Keeps (environment S) left
        → LAW 21 S left (select (all_cases cs (all_cases (each_case_under b es) (and_case b stop ds)))) }
{}

/// A choice of one process for each of some conditions.
pub fn if_copy_holds()
    ensures { (S : List (Name × Kind)) (p : Tree) (bs : List Exp) → AreFew S bs → IsExhaustive (environment S) bs
        → are_conditions (environment S) bs ≡ true → Keeps (environment S) p → LAW 24 S p (select (copies bs p)) }
{}

/// Another assignment in a choice, which does the same where that choice is taken.
pub fn if_under_holds()
    ensures { (S : List (Name × Kind)) (cs ds : Cases) (b : Exp) (xs : List ℕ) (es fs : List Exp)
        → EachEqual (IsEqualWhere S b (conditions cs)) es fs → Keeps (environment S) (assign xs fs)
        → let left = select (all_cases cs (and_case b (assign xs es) ds)) in Keeps (environment S) left
        → LAW 25 S left (select (all_cases cs (and_case b (assign xs fs) ds))) }
{}
