//! What is told of a part.

ghost use Rattle.std.specs.Prelude.{◌≡◌, ◌++◌, ◌==◌, if◌then◌else◌, codes, decimal, OnOk};
ghost use Rattle.occ_draw.specs.Words.{change_text, count_of, count_text, lines_of, lines_text, part_text, word_text};
ghost use Rattle.occ_syntax.specs.View.{tree};

use itoa::Buffer;
use occ_syntax::{Memory, Proc, controls};

/// Adds a number in decimal.
pub(crate) fn push_number(text: &mut Vec<u8>, number: u64) -> Result<(), Memory>
    ensures { OnOk result (text.new.items ≡ text.old.items ++ decimal number) }
{
    let mut buffer = Buffer::new();
    text.extend_from_slice(buffer.format(number).as_bytes())?;
    Ok(())
}

/// Adds words.
pub(crate) fn push_words(text: &mut Vec<u8>, words: &[u8]) -> Result<(), Memory>
    ensures { OnOk result (text.new.items ≡ text.old.items ++ words.now) }
{
    text.extend_from_slice(words)?;
    Ok(())
}

// The construct that a part is.
#[tactic(auto, unfolding(crate::specs::tree))]
fn word(part: &Proc) -> &'static [u8]
    ensures { result.now ≡ word_text (tree part.now) }
{
    match part {
        Proc::Skip => b"SKIP",
        Proc::Stop => b"STOP",
        Proc::Assign { .. } => b"assignment",
        Proc::Input { .. } => b"input",
        Proc::Output { .. } => b"output",
        Proc::Seq(_) => b"SEQ",
        Proc::Par(_) => b"PAR",
        Proc::If(_) => b"IF",
        Proc::Alt(_) => b"ALT",
        Proc::Var { .. } => b"variable declaration",
        Proc::Chan { .. } => b"channel declaration",
    }
}

// How many parts, choices or branches it has.
#[tactic(auto, unfolding(crate::specs::tree))]
fn count(part: &Proc) -> Option<usize>
    ensures { result ≡ count_of (tree part.now) }
{
    match part {
        Proc::Skip | Proc::Stop => None,
        Proc::Assign { .. } | Proc::Input { .. } | Proc::Output { .. } => None,
        Proc::Seq(parts) => Some(parts.items().len()),
        Proc::Par(parts) => Some(parts.items().len()),
        Proc::If(choices) => Some(choices.items().len()),
        Proc::Alt(alternatives) => Some(alternatives.items().len()),
        Proc::Var { .. } | Proc::Chan { .. } => None,
    }
}

fn push_count(text: &mut Vec<u8>, count: Option<usize>) -> Result<(), Memory>
    ensures { OnOk result (text.new.items ≡ text.old.items ++ count_text count) }
{
    match count {
        Some(count) => {
            push_words(text, b" of ")?;
            push_number(text, count as u64)
        }
        None => Ok(()),
    }
}

/// On how many lines a part is printed, and the greatest number of 64 bits where these are more.
fn lines(part: &Proc) -> u64
    ensures { result ≡ lines_of (tree part.now) }
{
    controls(part)
}

fn push_lines(text: &mut Vec<u8>, count: u64) -> Result<(), Memory>
    ensures { OnOk result (text.new.items ≡ text.old.items ++ lines_text count) }
{
    push_number(text, count)?;
    push_words(text, line_word(count))
}

fn line_word(count: u64) -> &'static [u8]
    ensures { result.now ≡ (if count == 1 then codes " line" else codes " lines") }
{
    if count == 1 { b" line" } else { b" lines" }
}

fn push_part(text: &mut Vec<u8>, part: &Proc) -> Result<(), Memory>
    ensures { OnOk result (text.new.items ≡ text.old.items ++ part_text (tree part.now)) }
{
    push_words(text, word(part))?;
    push_count(text, count(part))?;
    push_words(text, b" in ")?;
    push_lines(text, lines(part))
}

/// Adds what changes in a step: what stood at its place, and what stands there then.
pub(crate) fn push_change(text: &mut Vec<u8>, old: &Proc, new: &Proc) -> Result<(), Memory>
    ensures { OnOk result (text.new.items ≡ text.old.items ++ change_text (tree old.now) (tree new.now)) }
{
    push_part(text, old)?;
    push_words(text, b" becomes ")?;
    push_part(text, new)
}
