ghost use Rattle.std.specs.Prelude.{◌<◌, ◌≤◌, IfOk, length};
ghost use Rattle.occ_dd.specs.Table.{nodes_of};
ghost use Rattle.std.specs.Bool.{OnTrue, OnFalse};
ghost use Rattle.occ_dd.specs.Store.{IsKnown, IsFull, Splits};
ghost use Rattle.occ_dd.specs.Store.{Keeps as KeepsSets};
ghost use Rattle.occ_mdd.specs.Chosen.{AreChosen, Grown, IsAsked, IsChosen, IsHalved, IsSetPart, IsTop};

use occ_dd::{Call, Label, Memo, Memory, SetId, Store, Table};

/// What a choice comes to: a function that is there, or a bit with the choices on its two sides.
#[derive(Clone, Copy)]
pub enum Choice {
    Made(usize),
    Split(u32, Call, Call),
}

// The greatest bit that matters to a set, whose own is `top`, or to one of two functions.
pub fn top_bit<L: Label>(table: &Table<Option<L>>, top: u32, a: usize, b: usize) -> u32
    requires top { top < 64 }
    requires a { a < length (nodes_of table.now) }
    requires b { b < length (nodes_of table.now) }
    ensures { IsTop (nodes_of table.now) top a b result }
{
    (top + 1).max(table.depth(a)).max(table.depth(b)) - 1
}

// The parts of a set at a bit, from its split at the greatest bit on which it depends.
pub fn sides(store: &Store, set: SetId, split: (u32, SetId, SetId), bit: u32) -> (SetId, SetId)
    requires known { IsKnown store.now set }
    requires split { Splits store.now set split.0 split.1 split.2 }
    requires top { split.0 ≤ bit }
    ensures low { IsSetPart store.now result.0 set bit 0 }
    ensures high { IsSetPart store.now result.1 set bit 1 }
{
    let _known = store;
    let (top, low, high) = split;
    if top == bit { (low, high) } else { (set, set) }
}

// Whether a set is full.
fn is_full(store: &Store, set: SetId) -> bool
    requires { IsKnown store.now set }
    ensures full { OnTrue result (IsFull store.now set) }
    ensures other { OnFalse result (IsFull store.now set → ⊥) }
{
    set == store.full()
}

// The choice itself, where its set is empty or full, and else the choices on the two sides of the greatest bit
// that matters to it.
fn halve<L: Label>(table: &Table<Option<L>>, store: &Store, call: Call) -> Choice
    requires asked { IsAsked (nodes_of table.now) store.now call }
    ensures { IsHalved (nodes_of table.now) store.now call result }
{
    let set = SetId(call.first);
    let Some(split) = store.split(set) else {
        return if is_full(store, set) {
            Choice::Made(call.second)
        } else {
            Choice::Made(call.third)
        };
    };
    let bit = top_bit(table, split.0, call.second, call.third);
    let (set_low, set_high) = sides(store, set, split, bit);
    let (a_low, a_high) = table.parts(call.second, bit);
    let (b_low, b_high) = table.parts(call.third, bit);
    let low = Call {
        first: set_low.0,
        second: a_low,
        third: b_low,
    };
    let high = Call {
        first: set_high.0,
        second: a_high,
        third: b_high,
    };
    Choice::Split(bit, low, high)
}

// The function that is the call's second on the set that is its first, and its third elsewhere.
pub fn choose<L: Label>(
    table: &mut Table<Option<L>>,
    store: &mut Store,
    call: Call,
    memo: &mut Memo,
) -> Result<usize, Memory>
    requires asked { IsAsked (nodes_of table.old) store.old call }
    requires right { AreChosen (nodes_of table.old) store.old memo.old }
    ensures grown { Grown (nodes_of table.old) (nodes_of table.new) store.old store.new }
    ensures right { AreChosen (nodes_of table.new) store.new memo.new }
    ensures chosen { IfOk result (IsChosen (nodes_of table.new) store.new call) }
{
    if call.second == call.third {
        return Ok(call.second);
    }
    if let Some(chosen) = memo.get(call) {
        return Ok(chosen);
    }
    match halve(table, store, call) {
        Choice::Made(chosen) => Ok(chosen),
        Choice::Split(bit, low_call, high_call) => {
            let low = choose(table, store, low_call, memo)?;
            let high = choose(table, store, high_call, memo)?;
            let chosen = table.branch(bit, low, high)?;
            memo.insert(call, chosen)?;
            Ok(chosen)
        }
    }
}
