//! Laws of steps.

ghost use Rattle.std.specs.Prelude.{◌≡◌, ◌++◌, List, true};
ghost use Rattle.occ_target_laws.specs.occ_base.declared.names.Name.{Name};
ghost use Rattle.occ_derive_moves.specs.Moves.{AreNarrow, Works};
ghost use Rattle.occ_derive_moves.specs.Steps.{Steps};
ghost use Rattle.occ_replay_rules.specs.Moves.{Move, Moves};
ghost use Rattle.occ_target_laws.specs.occ_syntax.declared.scope.Kind.{Kind};
ghost use Rattle.occ_target_laws.specs.occ_syntax.Same.{SAME};
ghost use Rattle.occ_target_laws.specs.occ_syntax.Scopes.{environment};
ghost use Rattle.occ_target_laws.specs.occ_syntax.Tree.{Tree};
ghost use Rattle.occ_target_laws.specs.occ_syntax.Types.{scope_kept};
ghost use Rattle.occ_target_laws.specs.occ_syntax.Usage.{Keeps};

use occ_replay_rules::laws_are_sound;

/// Moves are steps.
pub fn moves_are_steps()
    ensures { (S : List (Name × Kind)) (p q : Tree) (moves : List Move) → Moves S p moves q → Steps S p moves q }
{}

/// Steps are moves, where no printed line of a part that comes in has more tokens than a line of a text may have.
pub fn narrow_steps_are_moves()
    ensures { (S : List (Name × Kind)) (p q : Tree) (moves : List Move) → Steps S p moves q → AreNarrow moves → Moves S p moves q }
{}

/// A row of moves that are used well is one of steps.
pub fn rows_make_steps()
    ensures { (S : List (Name × Kind)) (p q : Tree) (moves : List Move) → scope_kept S ≡ true → Keeps (environment S) p → Works S p moves q
        → Steps S p moves q }
{}

/// Steps from where others lead are, behind these, steps to where they lead.
pub fn steps_go_on()
    ensures { (S : List (Name × Kind)) (p q r : Tree) (moves more : List Move) → Steps S p moves q → Steps S q more r
        → Steps S p (moves ++ more) r }
{}

/// The same steps from a process lead to one process.
pub fn steps_lead_to_one_process()
    ensures { (S : List (Name × Kind)) (p q r : Tree) (moves : List Move) → Steps S p moves q → Steps S p moves r → q ≡ r }
{}

/// Steps lead from a process that keeps all rules to one that does.
pub fn steps_keep_the_rules()
    ensures { (S : List (Name × Kind)) (p q : Tree) (moves : List Move) → Keeps (environment S) p → Steps S p moves q
        → Keeps (environment S) q }
{}

/// Steps lead to a process that means the same.
pub fn steps_keep_the_meaning()
    ensures { (S : List (Name × Kind)) (p q : Tree) (moves : List Move) → scope_kept S ≡ true → Keeps (environment S) p → Steps S p moves q
        → SAME (environment S) p q }
{
    laws_are_sound();
}
