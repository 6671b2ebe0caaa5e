//! The lines of a text as a forest.

ghost use Rattle.std.specs.Prelude.{◌≡◌, ◌⊎◌, ◌<◌, length, false, IfOk, IfErr, OnOk};
ghost use Rattle.occ_parse_rules.specs.occ_lex.Symbols.{Extends};
ghost use Rattle.occ_parse_rules.specs.Forest.{forest, in_nodes};
ghost use Rattle.occ_parse.specs.Limits.{is_too_long};
ghost use Rattle.occ_parse.specs.Reading.{AreJudged, IsLaidOut, IsRefused, names_in};
ghost use Rattle.occ_parse.specs.Laying.{IsWellLaid, IsIllLaid};
ghost use Rattle.occ_parse_layout.specs.Layout.{laid_rows};

use crate::limits::frame_of;
use crate::stopping::{Judged, judge_rows};
use crate::{Bound, ParseFault};
use occ_parse_layout::{grown, least_bad};
use occ_parse_rules::{Nodes, rows};
use occ_syntax::Names;
use std::alloc::Global;

/// The forest of lines that are well laid out, where no faulty line stands behind them.
fn forest_of(alloc: Global, bound: Bound, judged: Judged) -> Result<Nodes, ParseFault>
    ensures found { IfOk result (λ nodes. IsWellLaid bound (laid_rows judged.lines.items) judged.stop (forest (in_nodes nodes))) }
    ensures refused { IfErr result (λ fault. IsIllLaid bound (laid_rows judged.lines.items) judged.stop fault ⊎ (fault ≡ ParseFault.Memory)) }
{
    let Judged { lines, stop } = judged;
    if let Some(line) = least_bad(alloc, &lines, frame_of(bound), stop.is_some())? {
        return Err(ParseFault::Form { line });
    }
    match stop {
        Some(fault) => Err(fault),
        None => Ok(grown(alloc, lines, 0)?),
    }
}

/// The forest of a text's lines, where it is well laid out. The names of the text are in the table then.
pub fn laid_out(
    alloc: Global,
    names: &mut Names,
    text: &[u8],
    bound: Bound,
) -> Result<Nodes, ParseFault>
    requires size { length text.now < 4294967295 }
    requires short { is_too_long bound text.now ≡ false }
    ensures found { IfOk result (λ nodes. IsLaidOut bound text.now names.old (forest (in_nodes nodes))) }
    ensures refused { IfErr result (λ fault. IsRefused bound text.now names.old fault ⊎ (fault ≡ ParseFault.Memory)) }
    ensures table { OnOk result (names.new ≡ names_in text.now names.old) }
    ensures extends { Extends names.old names.new }
{
    let reading = occ_parse_rules::read(alloc, text)?;
    let rows = rows(alloc, names, text, &reading.lines)?;
    let judged = judge_rows(alloc, bound, &rows, reading.fault)?;
    forest_of(alloc, bound, judged)
}
