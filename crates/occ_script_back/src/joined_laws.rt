ghost use Rattle.std.specs.Prelude.{◌≤◌, ℕ, List, length};
ghost use Rattle.occ_print_back.specs.occ_parse_rules.Places.{Place};
ghost use Rattle.occ_script.specs.Refusals.{IsScriptFault};
ghost use Rattle.occ_script.specs.Scripts.{IsScript};
ghost use Rattle.occ_script.specs.declared.fault.ScriptFault.{ScriptFault};
ghost use Rattle.occ_script.specs.declared.script.Script.{Script};
ghost use Rattle.occ_script_back.specs.Joined.{AreWrittenMoves, IsJoined};
ghost use Rattle.occ_script_write.specs.Text.{script_text};
ghost use Rattle.occ_script_write.specs.declared.writing.Done.{Done};
ghost use Rattle.occ_script_back.specs.Whole.{AreWrittenWell};
ghost use Rattle.occ_script_write.specs.occ_syntax.declared.scope.Program.{Program};

use crate::written_scripts_read_back;

/// Moves from an accepted program are written well: each part keeps types in its scope, and so does the program that they lead to; no
/// line of these is too long.
pub fn moves_are_written_well()
    ensures { (names : List (List ℕ)) (P : ℕ → Place) (from to : Program) (steps : List Done) → AreWrittenMoves names P from steps to
        → AreWrittenWell names P from steps to }
{}

/// The script of such moves, read with the table of names that it was printed from, isn't refused where its text has at most 4,194,304
/// bytes, and whatever script it is read as is a derivation, with as many steps.
pub fn written_moves_join()
    ensures kept { (names : List (List ℕ)) (P : ℕ → Place) (from to : Program) (steps : List Done) → AreWrittenMoves names P from steps to
        → length (script_text names from steps to) ≤ 4194304 → (e : ScriptFault)
        → IsScriptFault (script_text names from steps to) names e → ⊥ }
    ensures joined { (names : List (List ℕ)) (P : ℕ → Place) (from to : Program) (steps : List Done) → AreWrittenMoves names P from steps to
        → (new : List (List ℕ)) (script : Script) → IsScript (script_text names from steps to) names new script
        → IsJoined steps script }
{
    written_scripts_read_back();
}
