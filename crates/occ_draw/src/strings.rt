ghost use Rattle.std.specs.Prelude.{◌≡◌, ◌++◌, OnOk};
ghost use Rattle.std.specs.List.{flat_map};
ghost use Rattle.occ_draw.specs.Strings.{escaped, quoted};

use occ_syntax::Memory;

/// Adds a label as a string of the DOT language.
pub(crate) fn push_quoted(text: &mut Vec<u8>, label: &[u8]) -> Result<(), Memory>
    ensures { OnOk result (text.new.items ≡ text.old.items ++ quoted label.now) }
{
    text.push(b'"')?;
    push_escaped(text, label)?;
    text.push(b'"')?;
    Ok(())
}

fn push_escaped(text: &mut Vec<u8>, label: &[u8]) -> Result<(), Memory>
    ensures { OnOk result (text.new.items ≡ text.old.items ++ flat_map escaped label.now) }
{
    for character in label {
        push_character(text, *character)?;
    }
    Ok(())
}

fn push_character(text: &mut Vec<u8>, character: u8) -> Result<(), Memory>
    ensures { OnOk result (text.new.items ≡ text.old.items ++ escaped character) }
{
    if character == b'"' || character == b'\\' {
        text.push(b'\\')?;
        text.push(character)?;
    } else if character == b'\n' {
        text.extend_from_slice(b"\\n")?;
    } else {
        text.push(character)?;
    }
    Ok(())
}
