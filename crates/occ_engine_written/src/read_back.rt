//! Accepted programs print texts that read back, and so do their parts and those of scripts. These are laws, and no code: each is a
//! function without a body of its own whose contract is the law.

ghost use Rattle.std.specs.Prelude.{ℕ, ◌≡◌, ◌++◌, List, Some};
ghost use Rattle.occ_renamed.specs.occ_lex.Symbols.{Extends};
ghost use Rattle.occ_renamed.specs.occ_meaning.Context.{part_at};
ghost use Rattle.occ_renamed.specs.occ_parse.declared.bound.Bound.{Bound};
ghost use Rattle.occ_engine_written.specs.Accepted.{IsAcceptedText, IsLeft, IsReached, IsShort, PartPrintsBack, ReadsAsProgram};
ghost use Rattle.occ_script_table.specs.occ_script_back.Part.{PartIsNarrow};
ghost use Rattle.occ_script_table.specs.occ_script_back.Blank.{AreBlankLines};
ghost use Rattle.occ_renamed.specs.occ_replay_rules.Steps.{Step, new_part, scope_there};
ghost use Rattle.occ_engine_known.specs.occ_script.Scripts.{IsScript};
ghost use Rattle.occ_engine_known.specs.occ_script.declared.script.Script.{Script};
ghost use Rattle.occ_renamed.specs.occ_script_lines.Places.{scope_list};
ghost use Rattle.occ_engine_known.specs.occ_script_write.Text.{text_of_program};
ghost use Rattle.occ_engine_known.specs.occ_syntax.Tree.{Tree};
ghost use Rattle.occ_engine_known.specs.occ_syntax.View.{tree};
ghost use Rattle.occ_engine_known.specs.occ_syntax.declared.scope.Program.{Program};

use occ_script_table::printed_parts_read_back;

/// Each accepted program that was read, printed from the table of names that reading left or from one that began with it, reads back:
/// behind blank lines its text is read as that program, which is accepted as it was, with the same table, whichever limits bind the text.
/// Three things aren't so of every such program: a line on which it is printed may have more than 4,096 tokens, its text more than 65,536
/// bytes, and one that was read without limits may pass them.
pub fn accepted_programs_read_back()
    ensures { (b c : Bound) (names all : List (List ℕ)) (program : Program) (front : List ℕ) → IsAcceptedText b names program
        → IsLeft all → Extends names all → AreBlankLines front → IsShort b c (front ++ text_of_program all program) program
        → ReadsAsProgram c (front ++ text_of_program all program) all program }
{}

/// So does the text of each part of such a program, at any path: in the scope there it is read as that part, behind any text and from any
/// line number on, where no line of it has more than 4,096 tokens.
pub fn parts_of_accepted_programs_read_back()
    ensures { (b : Bound) (names all : List (List ℕ)) (program : Program) (path : List ℕ) (part : Tree) → IsAcceptedText b names program
        → IsLeft all → Extends names all → part_at path (tree program.body) ≡ Some part → PartIsNarrow part
        → PartPrintsBack all (scope_list path program.params (tree program.body)) part }
{
    printed_parts_read_back();
}

/// And the text of each part that a step of a script may put in, behind good steps from its accepted first program.
pub fn parts_of_scripts_read_back()
    ensures { (text : List ℕ) (old new : List (List ℕ)) (script : Script) (here : Tree) (step : Step) → IsLeft old
        → IsScript text old new script → IsReached script here step → PartIsNarrow (new_part script.from.program.params here step)
        → PartPrintsBack new (scope_there script.from.program.params here step) (new_part script.from.program.params here step) }
{
    printed_parts_read_back();
}
