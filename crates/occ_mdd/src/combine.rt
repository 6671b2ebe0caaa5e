ghost use Rattle.std.specs.Prelude.{◌≡◌, ◌<◌, ◌≤◌, IfOk, length};
ghost use Rattle.occ_dd.specs.Diagram.{Keeps};
ghost use Rattle.occ_dd.specs.Table.{nodes_of};
ghost use Rattle.occ_mdd.specs.Combined.{AreCombined, AreHalved, IsCombined, Pass, deepest};

use crate::Both;
use occ_dd::{Call, Label, Memo, Memory, Table};

// The greatest depth of two functions.
fn deepest<L: Label>(table: &Table<Option<L>>, call: Call) -> u32
    requires first { call.first < length (nodes_of table.now) }
    requires second { call.second < length (nodes_of table.now) }
    ensures depth { result ≡ deepest (nodes_of table.now) call }
    ensures bound { result ≤ 64 }
{
    table.depth(call.first).max(table.depth(call.second))
}

// The greatest bit that matters to one of two functions, with the calls on its two sides; None where both are
// constant.
fn halve<L: Label>(table: &Table<Option<L>>, call: Call) -> Option<(u32, Call, Call)>
    requires first { call.first < length (nodes_of table.now) }
    requires second { call.second < length (nodes_of table.now) }
    ensures { AreHalved (nodes_of table.now) call result }
{
    let depth = deepest(table, call);
    if depth == 0 {
        return None;
    }
    let bit = depth - 1;
    let (a_low, a_high) = table.parts(call.first, bit);
    let (b_low, b_high) = table.parts(call.second, bit);
    let low = Call {
        first: a_low,
        second: b_low,
        third: 0,
    };
    let high = Call {
        first: a_high,
        second: b_high,
        third: 0,
    };
    Some((bit, low, high))
}

// The constant function of what `f` gives for the labels of two constant functions.
fn terminal<L: Label, F: Both<L>>(
    table: &mut Table<Option<L>>,
    call: Call,
    f: &mut F,
) -> Result<usize, Memory>
    requires pass { Pass (nodes_of table.old) call (F.accepts f.old) }
    requires constant { deepest (nodes_of table.old) call ≡ 0 }
    ensures keeps { Keeps (nodes_of table.old) (nodes_of table.new) }
    ensures leads { F.leads f.old f.new }
    ensures combined { IfOk result (λ r. IsCombined (nodes_of table.new) (F.relates f.new) call r) }
{
    let first = table.label(call.first, 0);
    let second = table.label(call.second, 0);
    let label = f.both(first, second)?;
    table.leaf(label)
}

// The function of what `f` gives for the values of two functions, the first and the second of the call.
pub fn combine<L: Label, F: Both<L>>(
    table: &mut Table<Option<L>>,
    call: Call,
    f: &mut F,
    memo: &mut Memo,
) -> Result<usize, Memory>
    requires pass { Pass (nodes_of table.old) call (F.accepts f.old) }
    requires right { AreCombined (nodes_of table.old) (F.relates f.old) memo.old }
    ensures keeps { Keeps (nodes_of table.old) (nodes_of table.new) }
    ensures leads { F.leads f.old f.new }
    ensures right { AreCombined (nodes_of table.new) (F.relates f.new) memo.new }
    ensures combined { IfOk result (λ r. IsCombined (nodes_of table.new) (F.relates f.new) call r) }
{
    if let Some(combined) = memo.get(call) {
        return Ok(combined);
    }
    let halves = halve(table, call);
    let Some(pair) = halves else {
        let flat = terminal(table, call, f)?;
        memo.insert(call, flat)?;
        return Ok(flat);
    };
    let low = combine(table, pair.1, f, memo)?;
    let high = combine(table, pair.2, f, memo)?;
    let combined = table.branch(pair.0, low, high)?;
    memo.insert(call, combined)?;
    Ok(combined)
}
