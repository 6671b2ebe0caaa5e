//! Scripts don't rest on how names are called: moves stay moves, and texts stay the same, where names have other numbers in the table.
//! Each law here is the contract of a function that does nothing.

ghost use Rattle.std.specs.Prelude.{ℕ, ◌≡◌, List};
ghost use Rattle.occ_replay_rules.specs.occ_base.declared.names.Name.{Name};
ghost use Rattle.occ_replay_rules.specs.Moves.{Move, Moves};
ghost use Rattle.occ_renamed.specs.Scopes.{scope_renamed};
ghost use Rattle.occ_replay_rules.specs.occ_meaning.Rename.{exchanging, renamed};
ghost use Rattle.occ_replay_rules.specs.occ_print.Spelled.{part_text, program_text};
ghost use Rattle.occ_renamed.specs.Lines.{IsRenumbered};
ghost use Rattle.occ_renamed.specs.Moves.{moves_renamed};
ghost use Rattle.occ_replay_rules.specs.occ_syntax.Tree.{Tree};
ghost use Rattle.occ_replay_rules.specs.occ_syntax.declared.scope.Kind.{Kind};

/// Moves that lead from one process to another lead so where two names are exchanged in the scope, the processes and the parts.
pub fn moves_stay_moves()
    ensures { (S : List (Name × Kind)) (p q : Tree) (moves : List Move) (a b : ℕ) → Moves S p moves q
        → Moves (scope_renamed (exchanging a b) S) (renamed p (exchanging a b)) (moves_renamed (exchanging a b) moves) (renamed q (exchanging a b)) }
{}

/// A part under other names has the text that it had, where each name has the text that it had under its other number.
pub fn parts_keep_their_text()
    ensures { (f : ℕ → ℕ) (names other : List (List ℕ)) (level : ℕ) (p : Tree) → IsRenumbered f names other
        → part_text other level (renamed p f) ≡ part_text names level p }
{}

/// So does a program.
pub fn programs_keep_their_text()
    ensures { (f : ℕ → ℕ) (names other : List (List ℕ)) (name : ℕ) (params : List (Name × Kind)) (body : Tree) → IsRenumbered f names other
        → program_text other (f name) (scope_renamed f params) (renamed body f) ≡ program_text names name params body }
{}
