ghost use Rattle.std.specs.Prelude.{◌≡◌, ◌++◌, ◌*◌, OnOk, replicate};
ghost use Rattle.std.specs.List.{flat_map};
ghost use Rattle.occ_gen.specs.Programs.{line, line_text};

use occ_script::Memory;

/// Adds a line: two spaces for each level, its parts and a line feed.
pub fn push_line(text: &mut Vec<u8>, level: u64, parts: &[&[u8]]) -> Result<(), Memory>
    ensures { OnOk result (text.new.items ≡ text.old.items ++ line_text (line level (flat_map (λ part. part.now) parts.now))) }
{
    push_margin(text, level)?;
    push_parts(text, parts)?;
    text.extend_from_slice(b"\n")?;
    Ok(())
}

fn push_margin(text: &mut Vec<u8>, level: u64) -> Result<(), Memory>
    ensures { OnOk result (text.new.items ≡ text.old.items ++ replicate (2 * level) 32) }
{
    for _step in 0..level {
        text.extend_from_slice(b"  ")?;
    }
    Ok(())
}

fn push_parts(text: &mut Vec<u8>, parts: &[&[u8]]) -> Result<(), Memory>
    ensures { OnOk result (text.new.items ≡ text.old.items ++ flat_map (λ part. part.now) parts.now) }
{
    for part in parts {
        text.extend_from_slice(part)?;
    }
    Ok(())
}
