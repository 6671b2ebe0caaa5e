ghost use Rattle.std.specs.Prelude.{◌≡◌, IfOk};
ghost use Rattle.occ_parse_layout.specs.Layout.{laid_rows, least_bad, least_bad_of_none};

use crate::passed::Passed;
use crate::{Frame, Placed};
use occ_parse_rules::Memory;
use std::alloc::Global;

fn least_bad_of_none(frame: Frame, more: bool) -> Option<u32>
    ensures { result ≡ least_bad_of_none frame more }
{
    match frame {
        Frame::Part => None,
        Frame::Program | Frame::Plain => (!more).then_some(1),
    }
}

/// The number of the least line that is bad: one that stands where it may not, or that lacks what it needs. `more` says that
/// the text goes on behind these lines, and then a line is bad for something that it lacks only where no further line
/// could still supply it. A program without any line is bad on line 1; a part without any line has no bad line.
/// The time is linear in the number of lines.
pub fn least_bad(
    alloc: Global,
    rows: &[Placed],
    frame: Frame,
    more: bool,
) -> Result<Option<u32>, Memory>
    ensures { IfOk result (λ line. line ≡ least_bad frame more (laid_rows rows.now)) }
{
    if rows.is_empty() {
        return Ok(least_bad_of_none(frame, more));
    }
    let mut passed = Passed::new(alloc, frame)?;
    for (at, row) in rows.iter().enumerate() {
        if !passed.is_good(row, &rows[at + 1..], more) {
            return Ok(Some(row.number));
        }
        passed.pass(row)?;
    }
    Ok(None)
}
