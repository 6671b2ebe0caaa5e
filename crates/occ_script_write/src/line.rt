//! The lines of a script that stand at level 0.

ghost use Rattle.std.specs.Prelude.{◌≡◌, ◌++◌, OnOk};
ghost use Rattle.occ_script_write.specs.Text.{direction_text, line, numbers_text, path_text, place_text};

use occ_script_lines::{Direction, Path};
use occ_syntax::{Memory, push_number};

/// Adds words and a line feed.
pub(crate) fn push_line(text: &mut Vec<u8>, words: &[u8]) -> Result<(), Memory>
    ensures { OnOk result (text.new.items ≡ text.old.items ++ line words.now) }
{
    text.extend_from_slice(words)?;
    text.extend_from_slice(b"\n")?;
    Ok(())
}

/// How a direction is written.
pub(crate) fn direction_word(dir: Direction) -> &'static [u8]
    ensures { result.now ≡ direction_text dir }
{
    match dir {
        Direction::Forward => b"FORWARD",
        Direction::Backward => b"BACKWARD",
    }
}

fn push_place(text: &mut Vec<u8>, number: u32) -> Result<(), Memory>
    ensures { OnOk result (text.new.items ≡ text.old.items ++ place_text number) }
{
    text.extend_from_slice(b"/")?;
    push_number(text, u64::from(number))
}

fn push_numbers(text: &mut Vec<u8>, numbers: &[u32]) -> Result<(), Memory>
    ensures { OnOk result (text.new.items ≡ text.old.items ++ numbers_text numbers.now) }
{
    for number in numbers {
        push_place(text, *number)?;
    }
    Ok(())
}

/// Adds a path: a slash and a number for each step, or a slash alone.
pub(crate) fn push_path(text: &mut Vec<u8>, path: &Path) -> Result<(), Memory>
    ensures { OnOk result (text.new.items ≡ text.old.items ++ path_text path.now) }
{
    match path.items() {
        [] => {
            text.extend_from_slice(b"/")?;
            Ok(())
        }
        numbers => push_numbers(text, numbers),
    }
}
