//! Laws applied to parts of programs: what orders and expansions make of a process, move by move, and why they stop. Here are the
//! definitions and their laws; the engine itself stands on them.

ghost use Rattle.std.specs.Prelude.{ℕ, ◌≡◌, List, true};
ghost use Rattle.occ_print.specs.occ_base.declared.names.Name.{Name};
ghost use Rattle.occ_replay_rules.specs.Expansion.{IsExpanded};
ghost use Rattle.occ_replay_rules.specs.Moves.{Move, Moves};
ghost use Rattle.occ_replay_rules.specs.Orders.{Follows, Order};
ghost use Rattle.occ_print.specs.occ_syntax.Same.{SAME};
ghost use Rattle.occ_print.specs.occ_syntax.Scopes.{environment};
ghost use Rattle.occ_print.specs.occ_syntax.Tree.{Tree};
ghost use Rattle.occ_print.specs.occ_syntax.Types.{scope_kept};
ghost use Rattle.occ_print.specs.occ_syntax.Usage.{Keeps};
ghost use Rattle.occ_print.specs.occ_syntax.declared.scope.Kind.{Kind};

use occ_law_sound::laws_are_sound;

/// Orders that are followed make moves: each puts in a part that a law joins with the one before.
pub fn orders_make_moves()
    ensures { (S : List (Name × Kind)) (p q : Tree) (orders : List Order) (moves : List Move) → Follows S p orders moves q → Moves S p moves q }
{}

/// So does an expansion.
pub fn expansions_make_moves()
    ensures { (S : List (Name × Kind)) (p q : Tree) (path : List ℕ) (moves : List Move) → IsExpanded S p path moves q → Moves S p moves q }
{}

/// Moves lead to a process that means the same.
pub fn moves_keep_the_meaning()
    ensures { (S : List (Name × Kind)) (p q : Tree) (moves : List Move) → scope_kept S ≡ true → Keeps (environment S) p → Moves S p moves q
        → SAME (environment S) p q }
{
    laws_are_sound();
}
