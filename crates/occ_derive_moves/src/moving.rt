//! Laws of rows of moves.

ghost use Rattle.std.specs.Prelude.{◌≡◌, ◌++◌, ℕ, List, Some, true};
ghost use Rattle.occ_target_laws.specs.occ_base.declared.names.Name.{Name};
ghost use Rattle.occ_derive_moves.specs.Moves.{AreNarrow, Spares, Works, all_under, is_open};
ghost use Rattle.occ_replay_rules.specs.Moves.{Move, Moves};
ghost use Rattle.occ_replay_rules.specs.occ_meaning.Context.{part_at, put};
ghost use Rattle.occ_replay_rules.specs.occ_script_lines.Places.{scope_list};
ghost use Rattle.occ_target_laws.specs.occ_syntax.declared.scope.Kind.{Kind};
ghost use Rattle.occ_target_laws.specs.occ_syntax.Same.{SAME};
ghost use Rattle.occ_target_laws.specs.occ_syntax.Scopes.{environment};
ghost use Rattle.occ_target_laws.specs.occ_syntax.Tree.{Tree};
ghost use Rattle.occ_target_laws.specs.occ_syntax.Types.{scope_kept};
ghost use Rattle.occ_target_laws.specs.occ_syntax.Usage.{Keeps};

use occ_replay_rules::laws_are_sound;

/// Rows of moves can be put behind each other.
pub fn rows_go_on()
    ensures good { (S : List (Name × Kind)) (p q r : Tree) (moves more : List Move) → Works S p moves q → Works S q more r
        → Works S p (moves ++ more) r }
    ensures sparing { (S : List (Name × Kind)) (p q r : Tree) (moves more : List Move) → Spares S p moves q → Spares S q more r
        → Spares S p (moves ++ more) r }
{}

/// A row of sparing moves is one of moves used well.
pub fn sparing_rows_are_rows()
    ensures { (S : List (Name × Kind)) (p q : Tree) (moves : List Move) → Spares S p moves q → Works S p moves q }
{}

/// The row of a part with no PAR round it is a row of the whole, under the part's path.
pub fn open_parts_lift()
    ensures { (path : List ℕ) (S : List (Name × Kind)) (p c d : Tree) (moves : List Move) → is_open path p ≡ true → part_at path p ≡ Some c
        → Works (scope_list path S p) c moves d → Works S p (all_under path moves) (put path p d) }
{}

/// The row of a part, where each move is sparing, is a row of the whole, under the part's path, wherever the part stands.
pub fn sparing_parts_lift()
    ensures { (path : List ℕ) (S : List (Name × Kind)) (p c d : Tree) (moves : List Move) → part_at path p ≡ Some c
        → Spares (scope_list path S p) c moves d → Spares S p (all_under path moves) (put path p d) }
{}

/// A row leads from a part that keeps names, types, directions and usage to one that does.
pub fn rows_keep_the_rules()
    ensures { (S : List (Name × Kind)) (p q : Tree) (moves : List Move) → scope_kept S ≡ true → Keeps (environment S) p → Works S p moves q
        → Keeps (environment S) q }
{}

/// A row leads to a part that means the same.
pub fn rows_keep_the_meaning()
    ensures { (S : List (Name × Kind)) (p q : Tree) (moves : List Move) → scope_kept S ≡ true → Keeps (environment S) p → Works S p moves q
        → SAME (environment S) p q }
{
    laws_are_sound();
}

/// The moves of a row are moves of a derivation: at each of them the whole keeps all rules. No printed line of a part that comes in may
/// have more tokens than a line of a text.
pub fn rows_make_moves()
    ensures { (S : List (Name × Kind)) (p q : Tree) (moves : List Move) → scope_kept S ≡ true → Keeps (environment S) p → Works S p moves q
        → AreNarrow moves → Moves S p moves q }
{}
