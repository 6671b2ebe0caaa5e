//! The laws of expressions, and of inputs and outputs as choice.

ghost use Rattle.std.specs.Prelude.{◌≡◌, ◌≤◌, ◌∷◌, ℕ, [], List, length, true};
ghost use Rattle.occ_renamed.specs.occ_base.declared.names.Name.{Name};
ghost use Rattle.occ_derive_laws.specs.Alike.{IsAlike};
ghost use Rattle.occ_renamed.specs.occ_law.States.{AreFew, BranchesEqual, CasesEqual, EachEqual};
ghost use Rattle.occ_renamed.specs.occ_law.RuleTable.{LAW};
ghost use Rattle.occ_renamed.specs.occ_syntax.declared.expr.Op.TheVariants.{And};
ghost use Rattle.occ_renamed.specs.occ_syntax.declared.scope.Kind.{Kind};
ghost use Rattle.occ_renamed.specs.occ_syntax.Names.{is_in, some_names};
ghost use Rattle.occ_renamed.specs.occ_syntax.Scopes.{environment};
ghost use Rattle.occ_renamed.specs.occ_syntax.Tree.{Branches, Cases, Exp, alt, and_branch, assign, input, no_branch, operation, output, receive, select, send, skip, truth};
ghost use Rattle.occ_renamed.specs.occ_syntax.Types.{is_condition, scope_kept};
ghost use Rattle.occ_renamed.specs.occ_syntax.Usage.{Keeps};
ghost use Rattle.occ_renamed.specs.occ_usage.Local.{UsesNoMore};

/// The right sides of an assignment, the conditions of an IF, and the conditions and values of an ALT may become others that are alike.
pub fn expr_joins()
    ensures sides { (S : List (Name × Kind)) (xs : List ℕ) (es fs : List Exp) → Keeps (environment S) (assign xs es)
        → EachEqual (IsAlike S) es fs → LAW 14 S (assign xs es) (assign xs fs) }
    ensures choices { (S : List (Name × Kind)) (cs ds : Cases) → Keeps (environment S) (select cs) → CasesEqual (IsAlike S) cs ds
        → LAW 14 S (select cs) (select ds) }
    ensures branches { (S : List (Name × Kind)) (gs hs : Branches) → Keeps (environment S) (alt gs) → BranchesEqual (IsAlike S) gs hs
        → LAW 14 S (alt gs) (alt hs) }
{}

/// An input or an output is an ALT of one branch.
pub fn io_alt_joins()
    ensures inputs { (S : List (Name × Kind)) (c x : ℕ) → Keeps (environment S) (receive c x)
        → LAW 15 S (receive c x) (alt (and_branch (truth true) (input c x) skip no_branch)) }
    ensures outputs { (S : List (Name × Kind)) (c : ℕ) (e : Exp) → Keeps (environment S) (send c e)
        → LAW 15 S (send c e) (alt (and_branch (truth true) (output c e) skip no_branch)) }
    ensures sparing_input { (c x : ℕ) → UsesNoMore (alt (and_branch (truth true) (input c x) skip no_branch)) (receive c x) }
    ensures sparing_output { (c : ℕ) (e : Exp) → UsesNoMore (alt (and_branch (truth true) (output c e) skip no_branch)) (send c e) }
{}

/// Expressions name few bits where they name no others than three variables, or where others that name as much name few.
pub fn expressions_are_few()
    ensures variables { (S : List (Name × Kind)) (es : List Exp) (xs : List ℕ) → scope_kept S ≡ true → length xs ≤ 3
        → ((x : ℕ) → some_names es x ≡ true → is_in xs x ≡ true) → AreFew S es }
    ensures others { (S : List (Name × Kind)) (es fs : List Exp) → ((x : ℕ) → some_names es x ≡ true → some_names fs x ≡ true)
        → AreFew S fs → AreFew S es }
{}

/// An expression is like itself, and a condition is like TRUE AND this condition.
pub fn expressions_are_alike()
    ensures itself { (S : List (Name × Kind)) (e : Exp) → AreFew S (e ∷ []) → IsAlike S e e }
    ensures conjunction { (S : List (Name × Kind)) (b : Exp) → AreFew S (b ∷ []) → is_condition (environment S) b ≡ true
        → IsAlike S (operation And (truth true) b) b }
{}
