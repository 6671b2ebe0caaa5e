//! What the sides of the laws are made of: lists of branches as code has them, and expressions that name nothing.

ghost use Rattle.std.specs.Prelude.{◌≡◌, ◌++◌, ℕ, List, false};
ghost use Rattle.std.specs.List.Sorted.{IsPermutation};
ghost use Rattle.occ_renamed.specs.occ_base.declared.names.Name.{Name};
ghost use Rattle.occ_renamed.specs.occ_law.Lists.{BranchesReordered, all_branches};
ghost use Rattle.occ_renamed.specs.occ_law.States.{AreFew};
ghost use Rattle.occ_renamed.specs.occ_syntax.declared.expr.Guard.{Guard};
ghost use Rattle.occ_renamed.specs.occ_syntax.declared.proc.Proc.{Proc};
ghost use Rattle.occ_renamed.specs.occ_syntax.declared.scope.Kind.{Kind};
ghost use Rattle.occ_renamed.specs.occ_syntax.Names.{some_names};
ghost use Rattle.occ_renamed.specs.occ_syntax.Tree.{Exp};
ghost use Rattle.occ_renamed.specs.occ_syntax.View.{branches};

/// The branches of two lists one behind the other.
pub fn branches_stand_one_behind_the_other()
    ensures { (l m : List (Guard × Proc)) → branches (l ++ m) ≡ all_branches (branches l) (branches m) }
{}

/// Lists of alternatives in another order have the same branches in another order.
pub fn permuted_branches_are_reordered()
    ensures { (l m : List (Guard × Proc)) → IsPermutation l m → BranchesReordered (branches l) (branches m) }
{}

/// Expressions that name no variable name few bits.
pub fn expressions_that_name_nothing_are_few()
    ensures { (S : List (Name × Kind)) (es : List Exp) → ((x : ℕ) → some_names es x ≡ false) → AreFew S es }
{}
