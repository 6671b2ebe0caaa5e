//! Looks at the lines that follow.

ghost use Rattle.std.specs.Prelude.{◌≡◌};
ghost use Rattle.occ_parse_layout.specs.Layout.{closes, has_child, has_close, has_process, laid, laid_rows};

use crate::Placed;
use crate::kind::{is_close, is_declaration, kind_of};

/// Whether a line at that level has a child among the lines that follow it.
pub(crate) fn has_child(level: u32, after: &[Placed], more: bool) -> bool
    ensures { result ≡ has_child more level (laid_rows after.now) }
{
    for row in after {
        if row.level <= level {
            return false;
        }
        if row.level - 1 == level {
            return true;
        }
    }
    more
}

/// Whether a declaration at that level has its process among the lines that follow it.
pub(crate) fn has_process(level: u32, after: &[Placed], more: bool) -> bool
    ensures { result ≡ has_process more level (laid_rows after.now) }
{
    for row in after {
        if row.level < level {
            return false;
        }
        if row.level == level && !is_declaration(kind_of(&row.form)) {
            return true;
        }
    }
    more
}

/// Whether a line is a closing line.
pub(crate) fn closes(row: &Placed) -> bool
    ensures { result ≡ closes (laid row.now) }
{
    row.level == 0 && is_close(kind_of(&row.form))
}

/// Whether a closing line is among the lines that follow.
pub(crate) fn has_close(after: &[Placed], more: bool) -> bool
    ensures { result ≡ has_close more (laid_rows after.now) }
{
    for row in after {
        if closes(row) {
            return true;
        }
    }
    more
}
