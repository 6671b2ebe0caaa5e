//! The line of a step.

ghost use Rattle.std.specs.Prelude.{◌≡◌, ◌++◌, OnOk};
ghost use Rattle.occ_tool_run.specs.occ_script_write.Text.{direction_text, law_text, numbers_text, path_text};
ghost use Rattle.occ_draw.specs.Steps.{step_line};
ghost use Rattle.occ_draw.specs.Stopping.{IsLawNumber};
ghost use Rattle.occ_draw.specs.Words.{place_text};
ghost use Rattle.occ_tool_run.specs.occ_script.Shown.{shown_step};
ghost use Rattle.occ_syntax.specs.View.{tree};

use crate::words::{push_change, push_number, push_words};
use occ_syntax::{Memory, Proc};
use occ_tool_run::{Direction, LawId, Path, Step, name};

fn direction_word(dir: Direction) -> &'static [u8]
    ensures { result.now ≡ direction_text dir }
{
    match dir {
        Direction::Forward => b"FORWARD",
        Direction::Backward => b"BACKWARD",
    }
}

fn push_numbers(text: &mut Vec<u8>, numbers: &[u32]) -> Result<(), Memory>
    ensures { OnOk result (text.new.items ≡ text.old.items ++ numbers_text numbers.now) }
{
    for number in numbers {
        text.push(b'/')?;
        push_number(text, u64::from(*number))?;
    }
    Ok(())
}

fn push_path(text: &mut Vec<u8>, path: &Path) -> Result<(), Memory>
    ensures { OnOk result (text.new.items ≡ text.old.items ++ path_text path.now) }
{
    match path.items() {
        [] => push_words(text, b"/"),
        numbers => push_numbers(text, numbers),
    }
}

fn law_name(law: LawId) -> &'static [u8]
    requires { IsLawNumber law }
    ensures { result.now ≡ law_text law }
{
    name(law).as_bytes()
}

/// Adds where a step is taken: its number, its law, the way in which the law is used, and its path.
fn push_place(text: &mut Vec<u8>, number: u32, law: LawId, step: &Step) -> Result<(), Memory>
    requires { IsLawNumber law }
    ensures { OnOk result (text.new.items ≡ text.old.items ++ place_text number law step.now.dir step.now.path) }
{
    push_number(text, u64::from(number))?;
    push_words(text, b" ")?;
    push_words(text, law_name(law))?;
    push_words(text, b" ")?;
    push_words(text, direction_word(step.dir))?;
    push_words(text, b" at ")?;
    push_path(text, &step.path)
}

/// Adds the line of a step, by its number and its law: where it is taken, the part that stood there, and the new one.
pub(crate) fn push_step(
    text: &mut Vec<u8>,
    used: (u32, LawId),
    step: &Step,
    old: &Proc,
    new: &Proc,
) -> Result<(), Memory>
    requires { IsLawNumber used.1 }
    ensures { OnOk result (text.new.items ≡ text.old.items ++ step_line used.0 used.1 (shown_step step.now) (tree old.now) (tree new.now)) }
{
    let (number, law) = used;
    push_place(text, number, law, step)?;
    push_words(text, b": ")?;
    push_change(text, old, new)?;
    push_words(text, b"\n")
}
