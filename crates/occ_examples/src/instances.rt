//! Instances of laws, each beside what is nearly one.

ghost use Rattle.occ_law.specs.occ_base.declared.width.Width.TheVariants.{Word};
ghost use Rattle.occ_law.specs.RuleTable.{LAW};
ghost use Rattle.occ_law.specs.occ_syntax.Tree.{alt, declare, no_branch, no_tree, par, and_tree, send, seq, skip, truth, variable};
ghost use Rattle.std.specs.Prelude.{true};
ghost use Rattle.occ_examples.specs.Programs.{behind_input, both, c, if_else, if_then, ready_first, scope, set, word, x, x_is_one, y, z};

/// By seq-one `SEQ(x := 1)` is `x := 1`, but a SEQ without parts is no SKIP.
pub fn what_is_one_part()
    ensures { LAW 2 scope (seq (and_tree (set x (word 1)) no_tree)) (set x (word 1)) × (LAW 2 scope (seq no_tree) skip → ⊥) }
{}

/// By assign-alt `y := 1` goes behind the guard `c ? x`. An assignment that reads x doesn't.
pub fn assignments_go_behind_guards()
    ensures { LAW 11 scope (seq (both (set y (word 1)) (behind_input skip))) (behind_input (seq (both (set y (word 1)) skip)))
        × (LAW 11 scope (seq (both (set y (variable x)) (behind_input skip))) (behind_input (seq (both (set y (variable x)) skip))) → ⊥) }
{}

/// By if-true an IF whose first condition is TRUE is that choice. `x = 1` isn't TRUE in every state.
pub fn true_choices_are_taken()
    ensures { LAW 18 scope (if_then (truth true) (set y (word 1))) (set y (word 1))
        × (LAW 18 scope (if_then x_is_one (set y (word 1))) (set y (word 1)) → ⊥) }
{}

/// By alt-skip one branch `TRUE & SKIP` is its process. Of two such branches neither is.
pub fn an_alternative_is_no_one_skip()
    ensures { LAW 30 scope (alt (ready_first (set x (word 1)) no_branch)) (set x (word 1))
        × (LAW 30 scope (alt (ready_first (set x (word 1)) (ready_first skip no_branch))) (set x (word 1)) → ⊥) }
{}

/// By par-if an IF leaves a PAR where one of its conditions is TRUE in every state. Without the last choice it may stop, and stays.
pub fn choices_leave_a_par()
    ensures { LAW 44 scope (par (both (if_else x_is_one skip skip) (send c (word 1))))
        (if_else x_is_one (par (both skip (send c (word 1)))) (par (both skip (send c (word 1)))))
        × (LAW 44 scope (par (both (if_then x_is_one skip) (send c (word 1)))) (if_then x_is_one (par (both skip (send c (word 1))))) → ⊥) }
{}

/// By var-unused a variable that isn't named leaves; one that is named stays.
pub fn unused_variables_leave()
    ensures { LAW 46 scope (declare z (Word 2) (set x (word 1))) (set x (word 1))
        × (LAW 46 scope (declare z (Word 2) (set z (word 1))) (set z (word 1)) → ⊥) }
{}
