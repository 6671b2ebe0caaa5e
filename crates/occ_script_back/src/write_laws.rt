ghost use Rattle.std.specs.Prelude.{◌≡◌, ◌≤◌, ℕ, List, [], ◌∷◌, ◌++◌, Some, codes, length, map, true};
ghost use Rattle.std.specs.List.{AllByRecursion};
ghost use Rattle.occ_script_write.specs.occ_base.declared.names.Name.{Name};
ghost use Rattle.occ_print_back.specs.occ_parse_rules.Places.{Place};
ghost use Rattle.occ_script_back.specs.Part.{IsPrintablePart, PartIsNarrow};
ghost use Rattle.occ_script_write.specs.occ_script_lines.declared.section.Format.TheVariants as format;
ghost use Rattle.occ_script_write.specs.occ_script_lines.Lines.{head_of, is_line};
ghost use Rattle.occ_script_write.specs.occ_script_lines.Sections.{Section, sections_of};
ghost use Rattle.occ_script_write.specs.Text.{law_text, line, script_text, step_words};
ghost use Rattle.occ_script_write.specs.declared.writing.Done.{Done};
ghost use Rattle.occ_script_back.specs.Reads.{AreRead, IsFaultOfLast, IsStepWell};
ghost use Rattle.occ_script_back.specs.Staying.{PartStays, ProgramStays};
ghost use Rattle.occ_script_back.specs.Steps.{StepReadsBack};
ghost use Rattle.occ_print_back.specs.occ_parse.declared.bound.Bound.TheVariants as bound;
ghost use Rattle.occ_script_back.specs.Blank.{ends_line};
ghost use Rattle.occ_script_back.specs.Limits.{IsWithin};
ghost use Rattle.occ_script.specs.Refusals.{IsBadEnd, IsScriptFault};
ghost use Rattle.occ_script.specs.Scripts.{IsScript};
ghost use Rattle.occ_script.specs.declared.content.Content.TheVariants as content;
ghost use Rattle.occ_script.specs.declared.script.Script.{Script};
ghost use Rattle.occ_script_back.specs.Programs.{ProgramReadsBack, program_section};
ghost use Rattle.occ_script_back.specs.Whole.{AreWrittenWell, IsScriptOf};
ghost use Rattle.occ_script.specs.Steps.{AreSteps};
ghost use Rattle.occ_script.specs.declared.fault.ScriptFault.{ScriptFault};
ghost use Rattle.occ_script.specs.declared.script.Step.{Step};
ghost use Rattle.occ_script_back.specs.Tables.{IsGrown};
ghost use Rattle.occ_print_back.specs.Program.{IsPrintable};
ghost use Rattle.occ_script_write.specs.occ_syntax.Tree.{Tree};
ghost use Rattle.occ_script_write.specs.occ_syntax.View.{tree};
ghost use Rattle.occ_script_write.specs.occ_syntax.declared.scope.Kind.{Kind};
ghost use Rattle.occ_script_write.specs.occ_syntax.declared.scope.Program.{Program};
ghost use Rattle.occ_script_back.specs.Said.{AreWritten, IsSaid};
ghost use Rattle.occ_script_back.specs.Chunks.{Chunk, IsBegun, IsCut, chunk_sections, chunks_text, script_chunks, step_chunk};

use crate::printed_parts_read_back;
use occ_script::one_reading_of_a_part;
use occ_script_write::{names_are_distinct, one_form};

/// The line of a step says its law, by its name, its direction and its path.
pub fn written_lines_say_their_steps()
    ensures { (done : Done) → IsSaid done
        → head_of (codes "STEP") (line (step_words done)) ≡ Some (record { law = law_text done.law; dir = done.dir; path = done.path }) }
{}

/// A text of keyword lines, each with a text behind it that has none, is cut into these.
pub fn written_texts_have_their_sections()
    ensures { (first : Chunk) (others : List Chunk) → IsBegun first → AllByRecursion IsCut others
        → sections_of format.Script (chunks_text (first ∷ others)) ≡ chunk_sections 1 [] (first ∷ others) }
{}

/// A written script is cut into its first line, the program behind FROM, its steps, and the program behind TO.
pub fn written_scripts_have_their_sections()
    ensures { (names : List (List ℕ)) (P : ℕ → Place) (from to : Program) (steps : List Done) → AreWritten names P from steps to
        → sections_of format.Script (script_text names from steps to) ≡ chunk_sections 1 [] (script_chunks names from steps to) }
{}

/// The section of a written step is read as that step and as no other, and isn't refused: where its part keeps types in the scope and
/// no line of it has more than 4,096 tokens.
pub fn written_steps_read_back()
    ensures { (names : List (List ℕ)) (P : ℕ → Place) (scope : List (Name × Kind)) (n : ℕ) (front : List ℕ) (done : Done) → IsSaid done
        → IsPrintablePart names P scope (tree done.part) → PartIsNarrow (tree done.part) → StepReadsBack names P scope n front done }
{
    one_form();
    one_reading_of_a_part();
    names_are_distinct();
    printed_parts_read_back();
}

/// What is printed from a table of names is printed so from each longer one, and can be printed from it.
pub fn printed_texts_stay()
    ensures parts { (names t : List (List ℕ)) (P Q : ℕ → Place) (scope : List (Name × Kind)) (part : Tree)
        → IsGrown names P t Q → IsPrintablePart names P scope part
        → PartStays names t Q scope part }
    ensures programs { (names t : List (List ℕ)) (P Q : ℕ → Place) (program : Program) → IsGrown names P t Q
        → IsPrintable names P program.name.0 program.params (tree program.body)
        → ProgramStays names t Q program.name.0 program.params (tree program.body) }
{}

/// The sections of written steps, in front of one with `TO`, are read as those steps, one by one, with a table of names that has grown
/// from the one that they were printed from.
pub fn written_steps_are_read()
    ensures { (names t new : List (List ℕ)) (P Q : ℕ → Place) (n : ℕ) (front : List ℕ) (dones : List Done) (steps : List Step)
        (c : Chunk) (target : Section)
        → AreSteps t new (chunk_sections n front (map (step_chunk names) dones ++ c ∷ [])) (target ∷ []) steps
        → is_line (codes "TO") target.row ≡ true → is_line (codes "TO") c.row ≡ true → IsGrown names P t Q
        → AllByRecursion (IsStepWell names P) dones → AreRead names P new dones steps c target }
{
    one_form();
    one_reading_of_a_part();
    names_are_distinct();
    printed_parts_read_back();
}

/// Sections of written steps aren't refused: a fault of theirs and of a last one with `TO` is one of the last alone.
pub fn written_steps_are_kept()
    ensures { (names t : List (List ℕ)) (P Q : ℕ → Place) (n last : ℕ) (front : List ℕ) (dones : List Done) (c : Chunk) (e : ScriptFault)
        → IsBadEnd last t (chunk_sections n front (map (step_chunk names) dones ++ c ∷ [])) e
        → is_line (codes "TO") c.row ≡ true → IsGrown names P t Q
        → AllByRecursion (IsStepWell names P) dones → IsFaultOfLast names P c last e }
{
    one_form();
    one_reading_of_a_part();
    names_are_distinct();
    printed_parts_read_back();
}

/// The section of a written program, behind FROM or behind TO, isn't refused, and the text that is read from it reads as that program
/// and as no other, where it stands; the table of names stays as it is.
pub fn written_programs_read_back()
    ensures from { (names : List (List ℕ)) (P : ℕ → Place) (n : ℕ) (row front : List ℕ) (program : Program)
        → IsPrintable names P program.name.0 program.params (tree program.body) → ends_line front ≡ true
        → IsWithin bound.First program.name.0 program.params (tree program.body)
        → ProgramReadsBack content.First names (program_section names n row front program) program }
    ensures to { (names : List (List ℕ)) (P : ℕ → Place) (n : ℕ) (row front : List ℕ) (program : Program)
        → IsPrintable names P program.name.0 program.params (tree program.body) → ends_line front ≡ true
        → IsWithin bound.Script program.name.0 program.params (tree program.body)
        → ProgramReadsBack content.Last names (program_section names n row front program) program }
{
    one_form();
    one_reading_of_a_part();
    names_are_distinct();
}

/// A script that is written from a table of names isn't refused where it is read with that table, and whatever it is read as has the
/// programs and the steps that were written: where the text has at most 4,194,304 bytes and all keeps the limits that bind it there.
pub fn written_scripts_read_back()
    ensures kept { (names : List (List ℕ)) (P : ℕ → Place) (from to : Program) (steps : List Done) → AreWrittenWell names P from steps to
        → length (script_text names from steps to) ≤ 4194304 → (e : ScriptFault)
        → IsScriptFault (script_text names from steps to) names e → ⊥ }
    ensures read { (names : List (List ℕ)) (P : ℕ → Place) (from to : Program) (steps : List Done) → AreWrittenWell names P from steps to
        → (new : List (List ℕ)) (script : Script) → IsScript (script_text names from steps to) names new script
        → IsScriptOf names P from steps to new script }
{
    one_form();
    one_reading_of_a_part();
    names_are_distinct();
    printed_parts_read_back();
}
