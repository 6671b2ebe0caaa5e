//! What `prove` prints, `replay` joins; and what two of its answers have to do with each other. There is no code: each law is the contract of
//! a function without a body of its own.

ghost use Rattle.std.specs.Prelude.{ℕ, ◌≡◌, ◌≢◌, ◌≤◌, List, Option, Some, codes, length};
ghost use Rattle.occ_tool_laws.specs.OneProof.{HaveOneWay};
ghost use Rattle.occ_tool_laws.specs.ProveJoined.{IsJoined};
ghost use Rattle.occ_prove.specs.Answers.{Answers};
ghost use Rattle.occ_tool_laws.specs.Joined.{IsPrintedNarrow};
ghost use Rattle.occ_witness.specs.occ_call.Files.{Files, most_script_bytes};
ghost use Rattle.occ_witness.specs.occ_tool_words.Words.{job_of, replay};

use occ_witness::{
    kept_parts_have_known_names, names_stay_below, narrow_steps_are_moves, one_answer, one_reading,
    printed_moves_are_joined, programs_leave_places, read_programs_have_known_names,
    read_programs_print_within_levels, scripts_have_one_answer,
};

/// Where `prove` answers two files with status 0 and another text than SAME, the text is a script from the program of the first file to
/// that of the second, and words that ask for the replay of a file that holds it are answered with JOINED and the number of its steps, and
/// with nothing else. The text has at most 4,194,304 bytes, and no line on which the first program or a part of a step is
/// printed has more than 4,096 tokens.
pub fn proved_scripts_are_joined()
    ensures { (one two : Option (List ℕ)) (later : Files) (again : List (List ℕ)) (script text : List ℕ)
        → Answers one two 0 text → text ≢ codes "SAME\n" → IsPrintedNarrow one → length text ≤ most_script_bytes
        → job_of again ≡ Some (replay script) → later script ≡ Some text → IsJoined later again one two text }
{
    narrow_steps_are_moves();
    names_stay_below();
    programs_leave_places();
    kept_parts_have_known_names();
    read_programs_have_known_names();
    read_programs_print_within_levels();
    scripts_have_one_answer();
    printed_moves_are_joined();
}

/// Two answers of `prove` to the same files have one status and one text; or each is a script from the program of the
/// first file to that of the second, whose names are numbers of one table, or says that their normal program is too long, as it is then.
pub fn proofs_have_one_way()
    ensures { (one two : Option (List ℕ)) (s t : ℕ) (a b : List ℕ) → Answers one two s a → Answers one two t b
        → HaveOneWay one two s a t b }
{
    one_reading();
    one_answer();
}
