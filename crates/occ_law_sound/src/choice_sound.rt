//! The laws of IF and ALT: the two sides of each mean the same.
//! Each law is the contract of a function that does nothing.

ghost use Rattle.occ_law.specs.occ_base.declared.names.Name.{Name};
ghost use Rattle.occ_law.specs.Choice.{AltCase, AltFalse, AltFlat, AltLeast, AltNone, AltOrder, AltSame, AltSkip, AltSlide, AltSplit, AltTwice, ChoiceSides, IfCopy, IfCut, IfElseStop, IfFalse, IfMerge, IfNest, IfNone, IfSwap, IfTrue, IfUnder};
ghost use Rattle.occ_law.specs.occ_syntax.Same.{SAME};
ghost use Rattle.occ_law.specs.occ_syntax.Scopes.{Environment, environment};
ghost use Rattle.occ_law.specs.occ_syntax.Tree.{Tree};
ghost use Rattle.occ_law.specs.occ_syntax.Types.{types_kept};
ghost use Rattle.occ_law.specs.occ_syntax.declared.scope.Kind.{Kind};
ghost use Rattle.std.specs.Prelude.{List, true, ℕ, ◌≡◌};

/// An IF without choices is STOP.
pub fn if_none_is_sound()
    ensures { (Γ : Environment) (ks : List ℕ) (l r : Tree) → IfNone ks l r → SAME Γ l r }
{}

/// A choice whose condition is never true may be left out.
pub fn if_false_is_sound()
    ensures { (S : List (Name × Kind)) (ks : List ℕ) (l r : Tree) → IfFalse S ks l r → SAME (environment S) l r }
{}

/// An IF whose first condition is always true is its first process.
pub fn if_true_is_sound()
    ensures { (S : List (Name × Kind)) (ks : List ℕ) (l r : Tree) → IfTrue S ks l r → SAME (environment S) l r }
{}

/// A last choice TRUE STOP may be left out.
pub fn if_else_stop_is_sound()
    ensures { (Γ : Environment) (ks : List ℕ) (l r : Tree) → IfElseStop ks l r → SAME Γ l r }
{}

/// Choices behind others of which one is always true may be left out.
pub fn if_cut_is_sound()
    ensures { (S : List (Name × Kind)) (ks : List ℕ) (l r : Tree) → IfCut S ks l r → SAME (environment S) l r }
{}

/// The choices of an IF within a well-typed IF may stand in its place, each asking for both conditions.
pub fn if_nest_is_sound()
    ensures { (Γ : Environment) (ks : List ℕ) (l r : Tree) → types_kept l Γ ≡ true → IfNest ks l r → SAME Γ l r }
{}

/// Two choices whose conditions are never true together may change places.
pub fn if_swap_is_sound()
    ensures { (S : List (Name × Kind)) (ks : List ℕ) (l r : Tree) → IfSwap S ks l r → SAME (environment S) l r }
{}

/// Two choices of one process in a well-typed IF are one choice.
pub fn if_merge_is_sound()
    ensures { (Γ : Environment) (ks : List ℕ) (l r : Tree) → types_kept l Γ ≡ true → IfMerge ks l r → SAME Γ l r }
{}

/// A process is the IF that chooses it under each of some conditions of which one is always true.
pub fn if_copy_is_sound()
    ensures { (S : List (Name × Kind)) (ks : List ℕ) (l r : Tree) → IfCopy S ks l r → SAME (environment S) l r }
{}

/// Expressions behind a condition may stand for others that are equal where it is true and those in front are false.
pub fn if_under_is_sound()
    ensures { (S : List (Name × Kind)) (ks : List ℕ) (l r : Tree) → IfUnder S ks l r → SAME (environment S) l r }
{}

/// An ALT without branches is STOP.
pub fn alt_none_is_sound()
    ensures { (Γ : Environment) (ks : List ℕ) (l r : Tree) → AltNone ks l r → SAME Γ l r }
{}

/// The branches of an ALT may stand in any order.
pub fn alt_order_is_sound()
    ensures { (Γ : Environment) (ks : List ℕ) (l r : Tree) → AltOrder ks l r → SAME Γ l r }
{}

/// A branch whose condition is never true may be left out.
pub fn alt_false_is_sound()
    ensures { (S : List (Name × Kind)) (ks : List ℕ) (l r : Tree) → AltFalse S ks l r → SAME (environment S) l r }
{}

/// A branch that stands twice may stand once.
pub fn alt_twice_is_sound()
    ensures { (Γ : Environment) (ks : List ℕ) (l r : Tree) → AltTwice ks l r → SAME Γ l r }
{}

/// An ALT of one branch TRUE & SKIP is its process.
pub fn alt_skip_is_sound()
    ensures { (Γ : Environment) (ks : List ℕ) (l r : Tree) → AltSkip ks l r → SAME Γ l r }
{}

/// An ALT is an IF by the condition of one of its branches.
pub fn alt_case_is_sound()
    ensures { (Γ : Environment) (ks : List ℕ) (l r : Tree) → AltCase ks l r → SAME Γ l r }
{}

/// The branches of an unstable ALT behind TRUE & SKIP may stand in its place.
pub fn alt_flat_is_sound()
    ensures { (Γ : Environment) (ks : List ℕ) (l r : Tree) → AltFlat ks l r → SAME Γ l r }
{}

/// A branch may go into an ALT behind TRUE & SKIP that has a branch with its guard.
pub fn alt_split_is_sound()
    ensures { (Γ : Environment) (ks : List ℕ) (l r : Tree) → AltSplit ks l r → SAME Γ l r }
{}

/// Two branches of one guard are one, which then chooses.
pub fn alt_same_is_sound()
    ensures { (Γ : Environment) (ks : List ℕ) (l r : Tree) → AltSame ks l r → SAME Γ l r }
{}

/// The branches in front of an ALT behind TRUE & SKIP may be left out where that ALT begins with them.
pub fn alt_slide_is_sound()
    ensures { (Γ : Environment) (ks : List ℕ) (l r : Tree) → AltSlide ks l r → SAME Γ l r }
{}

/// A choice between an ALT and the same with more branches offers the further branches, or moves on.
pub fn alt_least_is_sound()
    ensures { (Γ : Environment) (ks : List ℕ) (l r : Tree) → AltLeast ks l r → SAME Γ l r }
{}

/// Each of these laws, by its number in the table, leads to parts that are the same.
pub fn choice_laws_are_sound()
    ensures { (n : ℕ) (S : List (Name × Kind)) (ks : List ℕ) (l r : Tree) → types_kept l (environment S) ≡ true → ChoiceSides n S ks l r →
        SAME (environment S) l r }
{}
