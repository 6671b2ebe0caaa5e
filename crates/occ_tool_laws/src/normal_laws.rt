//! Two files have one normal text exactly where they are answered with SAME, and a file that holds a normal text is answered with NORMAL.
//! There is no code: each law is the contract of a function without a body of its own.

ghost use Rattle.std.specs.Prelude.{ℕ, ◌≡◌, ◌≤◌, ◌↔◌, List, Some, codes, length};
ghost use Rattle.occ_tool_laws.specs.Rows.{rows_of};
ghost use Rattle.occ_witness.specs.occ_tool_run.Answers.{Answers};
ghost use Rattle.occ_witness.specs.occ_call.Files.{Files, most_table_bytes};
ghost use Rattle.occ_witness.specs.occ_tool_run.Texts.{figure_text};
ghost use Rattle.occ_witness.specs.occ_tool_words.Words.{job_of, normal, normalise, same};

use crate::texts_read_with_each_table;
use occ_witness::{
    faults_are_those_of_what_is_written, normal_texts_are_read_as_written,
    normal_texts_are_renamed, normal_texts_need_no_names, normal_texts_tell_programs_apart,
    one_reading, parameters_have_names, programs_read_again, readings_are_not_refused,
    readings_are_renamed, texts_of_programs_are_those_of_their_tables,
};

/// Where two files have normal texts, the two texts are one exactly where the files have the answer SAME, and where each answer to them is
/// that, whatever names their programs have beside those of their parameters, and in whichever order they are given. Programs of different
/// interfaces have different texts, and aren't answered with SAME.
pub fn normal_texts_tell_files_apart()
    ensures has { (files : Files) (words again both : List (List ℕ)) (first second : List ℕ) (x y : List ℕ)
        → job_of words ≡ Some (normalise first) → Answers files words 0 x
        → job_of again ≡ Some (normalise second) → Answers files again 0 y
        → job_of both ≡ Some (same first second) → (x ≡ y) ↔ Answers files both 0 (codes "SAME\n") }
    ensures each { (files : Files) (words again both : List (List ℕ)) (first second : List ℕ) (status : ℕ) (x y z : List ℕ)
        → job_of words ≡ Some (normalise first) → Answers files words 0 x
        → job_of again ≡ Some (normalise second) → Answers files again 0 y
        → job_of both ≡ Some (same first second) → Answers files both status z
        → (x ≡ y) ↔ (z ≡ codes "SAME\n") }
{
    one_reading();
    parameters_have_names();
    programs_read_again();
    readings_are_renamed();
    readings_are_not_refused();
    normal_texts_are_renamed();
    normal_texts_tell_programs_apart();
    texts_of_programs_are_those_of_their_tables();
    texts_read_with_each_table();
}

/// Where words that ask for the normal text of a file are answered with status 0, the answer is a normal text: words that ask of a file that
/// holds it whether it is one are answered with NORMAL and the number of its rows, with status 0, and with nothing else, whatever names the
/// program has beside those of its parameters. The text has at most 67,108,864 bytes: a longer one is refused.
pub fn written_texts_are_normal()
    ensures { (files later : Files) (words again : List (List ℕ)) (program name text : List ℕ) (status : ℕ) (answer : List ℕ)
        → job_of words ≡ Some (normalise program) → Answers files words 0 text
        → job_of again ≡ Some (normal name) → later name ≡ Some text → length text ≤ most_table_bytes
        → Answers later again status answer ↔ ((status ≡ 0) × (answer ≡ figure_text (codes "NORMAL") (rows_of text))) }
{
    parameters_have_names();
    normal_texts_need_no_names();
    texts_of_programs_are_those_of_their_tables();
    normal_texts_are_read_as_written();
    faults_are_those_of_what_is_written();
}
