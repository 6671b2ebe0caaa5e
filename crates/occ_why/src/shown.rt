//! The lines of a behaviour, and a text that ends with them.

ghost use Rattle.std.specs.Prelude.{◌≡◌, ◌++◌, IfOk, OnOk};
ghost use Rattle.std.specs.List.{flat_map};
ghost use Rattle.occ_tool_run.specs.occ_behaviour.Members.{IsNamed};
ghost use Rattle.occ_why.specs.Told.{AreLinesOf, IsTold, set_in};

use occ_why_text::{Behaviour, Memory, Names, behaviour_text};
use std::alloc::Global;

/// The lines of a behaviour, without the end of the last one.
pub(crate) fn lines_of(
    alloc: Global,
    names: &Names,
    behaviour: &Behaviour,
) -> Result<Vec<u8>, Memory>
    requires { IsNamed names.now behaviour.now }
    ensures { IfOk result (λ lines. AreLinesOf names.now behaviour.now lines.items) }
{
    let mut text = behaviour_text(alloc, names, behaviour)?;
    let Some(_end) = text.pop() else {
        unreachable!();
    };
    Ok(text)
}

/// A whole text: its first word, what stands behind it, and the lines of a behaviour.
pub(crate) fn whole(
    alloc: Global,
    word: &[u8],
    behind: &[u8],
    lines: &[u8],
) -> Result<Vec<u8>, Memory>
    ensures { IfOk result (λ text. IsTold word.now lines.now text.items) }
{
    let mut text = Vec::from_slice(alloc, word)?;
    text.extend_from_slice(behind)?;
    text.extend_from_slice(b"\nAs a behaviour, for belongs and witness:\n\n  ")?;
    push_lines(&mut text, lines)?;
    text.extend_from_slice(b"\n")?;
    Ok(text)
}

/// Adds lines, of which each further one begins with two spaces.
fn push_lines(text: &mut Vec<u8>, lines: &[u8]) -> Result<(), Memory>
    ensures { OnOk result (text.new.items ≡ text.old.items ++ flat_map set_in lines.now) }
{
    for byte in lines {
        push_byte(text, *byte)?;
    }
    Ok(())
}

fn push_byte(text: &mut Vec<u8>, byte: u8) -> Result<(), Memory>
    ensures { OnOk result (text.new.items ≡ text.old.items ++ set_in byte) }
{
    if byte == b'\n' {
        text.extend_from_slice(b"\n  ")?;
    } else {
        text.push(byte)?;
    }
    Ok(())
}
