//! Scripts of moves under other numbers of names.

ghost use Rattle.std.specs.Prelude.{ℕ, ◌≡◌, ◌<◌, ◌≤◌, List, [], length};
ghost use Rattle.occ_renamed.specs.occ_meaning.Rename.{exchanging, renamed};
ghost use Rattle.occ_renamed.specs.occ_parse_rules.Places.{Place};
ghost use Rattle.occ_script_table.specs.occ_print_back.Placed.{IsTable};
ghost use Rattle.occ_engine_written.specs.Exchanged.{names_exchanged, places_renamed};
ghost use Rattle.occ_engine_known.specs.occ_script.Refusals.{IsScriptFault};
ghost use Rattle.occ_engine_known.specs.occ_script.Scripts.{IsScript};
ghost use Rattle.occ_engine_known.specs.occ_script.declared.fault.ScriptFault.{ScriptFault};
ghost use Rattle.occ_engine_known.specs.occ_script.declared.script.Script.{Script};
ghost use Rattle.occ_script_table.specs.occ_script_back.Joined.{AreWrittenMoves, IsJoined};
ghost use Rattle.occ_engine_known.specs.occ_base.Names.{IsDistinct};
ghost use Rattle.occ_engine_written.specs.Front.{AllStandIn, AreWrittenBehind};
ghost use Rattle.occ_engine_written.specs.Renamed.{proc_renamed, program_renamed, steps_renamed};
ghost use Rattle.occ_engine_known.specs.occ_script_write.Text.{script_text};
ghost use Rattle.occ_engine_known.specs.occ_script_write.declared.writing.Done.{Done};
ghost use Rattle.occ_engine_known.specs.occ_syntax.declared.scope.Program.{Program};
ghost use Rattle.occ_engine_known.specs.occ_syntax.View.{tree};
ghost use Rattle.occ_engine_known.specs.occ_syntax.declared.proc.Proc.{Proc};

use occ_renamed::{names_are_distinct, one_form, one_reading_of_a_part};
use occ_script_table::{moves_are_written_well, printed_parts_read_back, written_moves_join};

/// A process under other names is seen as its tree under other names.
pub fn processes_are_renamed()
    ensures { (f : ℕ → ℕ) (p : Proc) → tree (proc_renamed f p) ≡ renamed (tree p) f }
{}

/// A table of places is one where two of its names are exchanged.
pub fn tables_stay_tables()
    ensures { (a b : ℕ) (names : List (List ℕ)) (P : ℕ → Place) → a < length names → b < length names → IsTable names P
        → IsTable (names_exchanged a b names) (places_renamed (exchanging a b) P) }
{}

/// Moves that are written stay so where two names of the table are exchanged in it, in the programs and in the steps, with the same
/// text.
pub fn written_moves_stay()
    ensures moves { (a b : ℕ) (names : List (List ℕ)) (P : ℕ → Place) (from to : Program) (steps : List Done)
        → a < length names → b < length names → AreWrittenMoves names P from steps to
        → AreWrittenMoves (names_exchanged a b names) (places_renamed (exchanging a b) P) (program_renamed (exchanging a b) from)
        (steps_renamed (exchanging a b) steps) (program_renamed (exchanging a b) to) }
    ensures text { (a b : ℕ) (names : List (List ℕ)) (from to : Program) (steps : List Done) → a < length names → b < length names
        → script_text (names_exchanged a b names) (program_renamed (exchanging a b) from) (steps_renamed (exchanging a b) steps)
        (program_renamed (exchanging a b) to) ≡ script_text names from steps to }
{}

/// Moves that are written from a table are written, with the same text and as many steps, from one that begins with given texts of it.
pub fn written_moves_in_front()
    ensures { (names : List (List ℕ)) (P : ℕ → Place) (from to : Program) (steps : List Done) (front : List (List ℕ))
        → AreWrittenMoves names P from steps to → IsDistinct front → AllStandIn front names
        → AreWrittenBehind front (script_text names from steps to) (length steps) }
{}

/// Moves that are written from a table are written, with the same text and as many steps, from one that begins with any given table of
/// places.
pub fn written_moves_behind()
    ensures { (names : List (List ℕ)) (P Q : ℕ → Place) (from to : Program) (steps : List Done) (front : List (List ℕ))
        → AreWrittenMoves names P from steps to → IsTable front Q
        → AreWrittenBehind front (script_text names from steps to) (length steps) }
{
    moves_are_written_well();
}

/// The script of written moves, read with an empty table of names, isn't refused where its text has at most 4,194,304 bytes, and whatever
/// script it is read as is a derivation, with as many steps.
pub fn printed_moves_are_joined()
    ensures kept { (names : List (List ℕ)) (P : ℕ → Place) (from to : Program) (steps : List Done) → AreWrittenMoves names P from steps to
        → length (script_text names from steps to) ≤ 4194304 → (e : ScriptFault) → IsScriptFault (script_text names from steps to) [] e → ⊥ }
    ensures joined { (names : List (List ℕ)) (P : ℕ → Place) (from to : Program) (steps : List Done) → AreWrittenMoves names P from steps to
        → (new : List (List ℕ)) (script : Script) → IsScript (script_text names from steps to) [] new script → IsJoined steps script }
{
    moves_are_written_well();
    written_moves_join();
    one_form();
    one_reading_of_a_part();
    names_are_distinct();
    printed_parts_read_back();
}
