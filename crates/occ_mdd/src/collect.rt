ghost use Rattle.std.specs.Prelude.{◌≡◌, ℕ, ◌<◌, ◌≤◌, ◌⊎◌, OnOk, IfOk, Contains, length, true};
ghost use Rattle.std.specs.Bool.{OnTrue, OnFalse};
ghost use Rattle.occ_dd.specs.Diagram.{depth_of};
ghost use Rattle.occ_dd.specs.Table.{nodes_of};
ghost use Rattle.occ_dd.specs.Store.{IsKnown, IsEmpty, Keeps, has};
ghost use Rattle.occ_mdd.specs.Met.{AreHalves, AreSeen, IsSeen, Visits};

use crate::choose::{sides, top_bit};
use occ_dd::{Call, Label, Memo, Memory, SetId, Store, Table};

/// The labels that were found, and the pairs of a set and a function that were visited.
#[derive(Drop)]
pub struct Found<L> {
    pub labels: Vec<L>,
    pub seen: Memo,
}

// A set and a function where a bit is 0, and where it is 1.
#[derive(Clone, Copy)]
struct Halves {
    bit: u32,
    set_low: SetId,
    set_high: SetId,
    low: usize,
    high: usize,
}

// Whether a set has no members.
fn is_empty(store: &Store, set: SetId) -> bool
    requires { IsKnown store.now set }
    ensures empty { OnTrue result (IsEmpty store.now set) }
    ensures filled { OnFalse result ((x : ℕ) × (has store.now set x ≡ true)) }
{
    set == store.empty()
}

// Adds a label, where there is one.
fn note<L: Label>(label: Option<L>, found: &mut Vec<L>) -> Result<(), Memory>
    ensures kept { (l : L) → Contains found.old.items l → Contains found.new.items l }
    ensures only { (l : L) → Contains found.new.items l → Contains found.old.items l ⊎ (label ≡ Some l) }
    ensures all { OnOk result ((l : L) → label ≡ Some l → Contains found.new.items l) }
{
    if let Some(label) = label {
        found.push(label)?;
    }
    Ok(())
}

// The halves of a set and a function at the greatest bit that matters to one of them.
fn halve<L: Label>(table: &Table<Option<L>>, store: &Store, set: SetId, a: usize) -> Halves
    requires set { IsKnown store.now set }
    requires a { a < length (nodes_of table.now) }
    requires deep { 0 < depth_of (nodes_of table.now) a }
    ensures { AreHalves (nodes_of table.now) store.now set a result }
{
    let Some(split) = store.split(set) else {
        let bit = table.depth(a) - 1;
        let (low, high) = table.parts(a, bit);
        return Halves {
            bit,
            set_low: set,
            set_high: set,
            low,
            high,
        };
    };
    let bit = top_bit(table, split.0, a, a);
    let (set_low, set_high) = sides(store, set, split, bit);
    let (low, high) = table.parts(a, bit);
    Halves {
        bit,
        set_low,
        set_high,
        low,
        high,
    }
}

// Adds the labels that a function has on a set. A pair that was visited adds none.
pub fn collect<L: Label>(
    table: &Table<Option<L>>,
    store: &Store,
    set: SetId,
    a: usize,
    found: &mut Found<L>,
) -> Result<(), Memory>
    requires set { IsKnown store.now set }
    requires a { a < length (nodes_of table.now) }
    requires right { AreSeen (nodes_of table.now) store.now found.old.labels.items found.old.seen }
    ensures after { Visits (nodes_of table.now) store.now store.now found.old.labels.items found.new.labels.items found.new.seen set.0 a }
    ensures all { OnOk result (IsSeen (nodes_of table.now) store.now found.new.labels.items set.0 a) }
{
    if is_empty(store, set) {
        return Ok(());
    }
    let call = Call {
        first: set.0,
        second: a,
        third: 0,
    };
    if found.seen.get(call).is_some() {
        return Ok(());
    }
    if table.depth(a) == 0 {
        note(table.label(a, 0), &mut found.labels)?;
        found.seen.insert(call, 0)?;
        return Ok(());
    }
    let halves = halve(table, store, set, a);
    collect(table, store, halves.set_low, halves.low, found)?;
    collect(table, store, halves.set_high, halves.high, found)?;
    found.seen.insert(call, 0)?;
    Ok(())
}
