//! The lines of a text up to the first one that can't be read or is over a limit.

ghost use Rattle.std.specs.Prelude.{◌≡◌, ℕ, Option, IfOk};
ghost use Rattle.occ_parse_layout.specs.Layout.{laid, laid_rows};
ghost use Rattle.occ_parse.specs.Limits.{line_fault as fault_of_line, stopped};
ghost use Rattle.occ_parse.specs.Reading.{AreForms, IsSaid};

use crate::limits::line_limit;
use crate::{Bound, ParseFault};
use occ_parse_layout::Placed;
use occ_parse_rules::{LineFault, Row, read_form};
use occ_syntax::Memory;
use std::alloc::Global;

/// The lines that are judged, and the fault of the line behind them, where there is one.
#[derive(Debug, Drop)]
pub struct Judged {
    pub lines: Vec<Placed>,
    pub stop: Option<ParseFault>,
}

fn line_fault(found: Option<(u32, LineFault)>) -> Option<ParseFault>
    ensures { result ≡ fault_of_line found }
{
    match found {
        Some((line, fault)) => Some(ParseFault::Line { line, fault }),
        None => None,
    }
}

/// A row as what it says.
fn placed(alloc: Global, row: &Row) -> Result<Placed, Memory>
    ensures { IfOk result (λ placed. IsSaid row.now (laid placed)) }
{
    let form = read_form(alloc, row.symbols.items())?;
    Ok(Placed {
        number: row.number,
        level: row.level,
        form,
    })
}

/// What rows say, up to the first one that is over a limit. Behind all rows stands the line that has the fault of tokens,
/// where there is one.
pub fn judge_rows(
    alloc: Global,
    bound: Bound,
    rows: &[Row],
    found: Option<(u32, LineFault)>,
) -> Result<Judged, Memory>
    ensures forms { IfOk result (λ judged. AreForms (stopped bound rows.now found).0 (laid_rows judged.lines.items)) }
    ensures stop { IfOk result (λ judged. (stopped bound rows.now found).1 ≡ judged.stop) }
{
    let mut lines = Vec::new(alloc);
    for row in rows {
        if let Some(which) = line_limit(bound, row) {
            let stop = Some(ParseFault::Limit {
                which,
                line: row.number,
            });
            return Ok(Judged { lines, stop });
        }
        lines.push(placed(alloc, row)?)?;
    }
    let stop = line_fault(found);
    Ok(Judged { lines, stop })
}
