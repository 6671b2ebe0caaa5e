ghost use Rattle.std.specs.Prelude.{◌≡◌, ◌++◌, ◌*◌, replicate, OnOk};
ghost use Rattle.occ_print.specs.Levels.{level_of};

use occ_syntax::Memory;

/// How deep a line stands. Each level is one below another, however deep a part is nested.
#[derive(Drop)]
pub enum Level<'a> {
    /// The outermost level of what is printed.
    Outer(u32),
    /// One level below.
    Below(&'a Level<'a>),
}

/// Adds two spaces for each level.
pub fn push_margin(text: &mut Vec<u8>, level: &Level) -> Result<(), Memory>
    ensures { OnOk result (text.new.items ≡ text.old.items ++ replicate (2 * level_of level.now) 32) }
{
    match level {
        Level::Outer(count) => push_spaces(text, *count),
        Level::Below(outer) => {
            push_margin(text, outer)?;
            text.extend_from_slice(b"  ")?;
            Ok(())
        }
    }
}

fn push_spaces(text: &mut Vec<u8>, levels: u32) -> Result<(), Memory>
    ensures { OnOk result (text.new.items ≡ text.old.items ++ replicate (2 * levels) 32) }
{
    for _level in 0..levels {
        text.extend_from_slice(b"  ")?;
    }
    Ok(())
}
