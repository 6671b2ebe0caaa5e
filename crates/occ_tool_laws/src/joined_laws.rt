//! What `transform`, `expand` and `derive` print, `replay` joins. There is no code: each law is the contract of a function without a body of its
//! own.

ghost use Rattle.std.specs.Prelude.{ℕ, ◌≡◌, ◌≤◌, List, Some, length};
ghost use Rattle.occ_tool_laws.specs.Joined.{IsJoined, IsJoinedWhereNarrow, IsPrintedNarrow};
ghost use Rattle.occ_witness.specs.occ_tool_run.Answers.{Answers};
ghost use Rattle.occ_witness.specs.occ_call.Files.{Files, most_script_bytes};
ghost use Rattle.occ_witness.specs.occ_tool_words.Words.{derive, expand, job_of, replay, transform};

use occ_witness::{
    expansions_are_written, followed_orders_are_written, known_moves_are_written,
    narrow_steps_are_moves, paths_of_texts_are_short, printed_moves_are_joined,
    scripts_have_one_answer,
};

/// Where words that ask for a transformation are answered with status 0, the text of the answer is a script, and words that ask for the
/// replay of a file that holds it are answered with JOINED and the number of its steps, and with nothing else. The text has at most
/// 4,194,304 bytes, and no line on which the first program is printed has more than 4,096 tokens.
pub fn transformed_scripts_are_joined()
    ensures { (files later : Files) (words again : List (List ℕ)) (program orders script text : List ℕ)
        → job_of words ≡ Some (transform program orders) → Answers files words 0 text
        → IsPrintedNarrow (files program) → length text ≤ most_script_bytes
        → job_of again ≡ Some (replay script) → later script ≡ Some text → IsJoined later again (files program) text }
{
    scripts_have_one_answer();
    printed_moves_are_joined();
    followed_orders_are_written();
}

/// The same of words that ask for an expansion.
pub fn expanded_scripts_are_joined()
    ensures { (files later : Files) (words again : List (List ℕ)) (program path script text : List ℕ)
        → job_of words ≡ Some (expand program path) → Answers files words 0 text
        → IsPrintedNarrow (files program) → length text ≤ most_script_bytes
        → job_of again ≡ Some (replay script) → later script ≡ Some text → IsJoined later again (files program) text }
{
    paths_of_texts_are_short();
    scripts_have_one_answer();
    printed_moves_are_joined();
    expansions_are_written();
}

/// The same of words that ask for the derivation of a normal program, where no printed line of a part of its steps has more than 4,096
/// tokens either.
pub fn derived_scripts_are_joined()
    ensures { (files later : Files) (words again : List (List ℕ)) (program script text : List ℕ)
        → job_of words ≡ Some (derive program) → Answers files words 0 text
        → IsPrintedNarrow (files program) → length text ≤ most_script_bytes
        → job_of again ≡ Some (replay script) → later script ≡ Some text → IsJoinedWhereNarrow later again (files program) text }
{
    narrow_steps_are_moves();
    scripts_have_one_answer();
    printed_moves_are_joined();
    known_moves_are_written();
}
