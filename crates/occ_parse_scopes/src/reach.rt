ghost use Rattle.std.specs.Prelude.{◌≡◌, ◌<◌, map, IfOk};
ghost use Rattle.std.specs.List.{list_any};
ghost use Rattle.occ_parse_scopes.specs.Reaching.{counter_reach, leaves, may_meet_any, meet_apart, meet_together, meets, misses, reach_of, reached, same_index, some_pair};
ghost use Rattle.occ_parse_rules.specs.Names.{some_meet};
ghost use Rattle.occ_parse_scopes.specs.Chain.{IsTableOf};

use crate::Scopes;
use occ_parse_forms::{Index, Item};
use occ_parse_rules::Sort;
use occ_syntax::{Memory, Name};
use std::alloc::Global;

/// The elements of an array that an item reaches: its index takes so many values from the base on, and the element is at
/// the value, more so much, less so much. A numeral is the one value 0, more the numeral.
#[derive(Clone, Copy, Debug)]
pub struct Reach {
    name: Name,
    index: Option<Name>,
    base: u8,
    count: u8,
    more: u8,
    less: u8,
}

/// What an item reaches whose index names a replicator of that sort; None where it names something else.
fn counter_reach(name: Name, index: Name, more: u8, less: u8, sort: Option<Sort>) -> Option<Reach>
    ensures { result ≡ counter_reach name index more less sort }
{
    match sort {
        Some(Sort::Counter { base, count }) => Some(Reach {
            name,
            index: Some(index),
            base,
            count: if count == 0 { 1 } else { count },
            more,
            less,
        }),
        _ => None,
    }
}

/// What an item reaches; None where it has no index, or one that names something else than a replicator's index.
/// It takes no memory.
pub fn reach_of(scopes: &Scopes, item: Item) -> Option<Reach>
    ensures { result ≡ reach_of scopes.now item }
{
    let name = item.name;
    match item.index? {
        Index::Number(more) => Some(Reach {
            name,
            index: None,
            base: 0,
            count: 1,
            more,
            less: 0,
        }),
        Index::Name(i) => counter_reach(name, i, 0, 0, scopes.sort(i, None)),
        Index::Plus(i, more) => counter_reach(name, i, more, 0, scopes.sort(i, None)),
        Index::Minus(i, less) => counter_reach(name, i, 0, less, scopes.sort(i, None)),
    }
}

/// The element at a value of the index; None where it would be below zero.
fn reached(reach: Reach, value: u16) -> Option<u16>
    requires { value < 512 }
    ensures { result ≡ reached reach value }
{
    let element = value + u16::from(reach.more);
    let less = u16::from(reach.less);
    if less <= element {
        Some(element - less)
    } else {
        None
    }
}

/// Whether the element at a value of the index isn't in scope. The table says which of the first 256 are.
fn misses(scopes: &Scopes, table: &[bool; 256], reach: Reach, value: u16) -> bool
    requires value { value < 512 }
    requires table { IsTableOf scopes.now reach.name.0 table.now }
    ensures { result ≡ misses scopes.now reach value }
{
    match reached(reach, value) {
        Some(element) => {
            if element < 256 {
                !table[usize::from(element)]
            } else {
                scopes.sort(reach.name, Some(element)).is_none()
            }
        }
        None => true,
    }
}

/// Whether the element at some value of the index isn't in scope. It takes no memory.
pub fn leaves(scopes: &Scopes, reach: Reach) -> bool
    ensures { result ≡ leaves scopes.now reach }
{
    let table = scopes.elements(reach.name);
    let base = u16::from(reach.base);
    let end = base + u16::from(reach.count);
    for value in base..end {
        if misses(scopes, &table, reach, value) {
            return true;
        }
    }
    false
}

/// Whether two items that share an index are one element at some value of it.
fn meet_together(a: Reach, b: Reach) -> bool
    ensures { result ≡ meet_together a b }
{
    u16::from(a.more) + u16::from(b.less) == u16::from(b.more) + u16::from(a.less)
        && u16::from(a.less) < u16::from(a.base) + u16::from(a.count) + u16::from(a.more)
}

/// Whether two items whose indices take their values apart are one element at some values of them.
fn meet_apart(a: Reach, b: Reach) -> bool
    ensures { result ≡ meet_apart a b }
{
    let first = u16::from(a.base) + u16::from(a.more) + u16::from(b.less);
    let second = u16::from(b.base) + u16::from(b.more) + u16::from(a.less);
    let none = u16::from(a.less) + u16::from(b.less);
    let first_end = first + u16::from(a.count);
    let second_end = second + u16::from(b.count);
    (first < second_end && second < first_end) && (none < first_end && none < second_end)
}

/// Whether both items have the same index.
fn same_index(i: Option<Name>, j: Option<Name>) -> bool
    ensures { result ≡ same_index i j }
{
    match (i, j) {
        (Some(i), Some(j)) => i == j,
        _ => false,
    }
}

/// Whether two items are one element at some values that their indices take together. It takes no memory.
fn meets(a: Reach, b: Reach) -> bool
    ensures { result ≡ meets a b }
{
    a.name == b.name
        && if same_index(a.index, b.index) {
            meet_together(a, b)
        } else {
            meet_apart(a, b)
        }
}

/// Whether both items reach elements and may be one.
fn may_meet(a: Option<Reach>, b: Option<Reach>) -> bool
    ensures { result ≡ may_meet_any a b }
{
    match (a, b) {
        (Some(a), Some(b)) => meets(a, b),
        _ => false,
    }
}

/// Whether an item and one of the others may be one element.
fn meets_one(a: Option<Reach>, others: &[Option<Reach>]) -> bool
    ensures { result ≡ list_any (may_meet_any a) others.now }
{
    for b in others {
        if may_meet(a, *b) {
            return true;
        }
    }
    false
}

/// Whether two items of a list may be one element.
fn some_pair(reaches: &[Option<Reach>]) -> bool
    ensures { result ≡ some_pair reaches.now }
{
    for i in 0..reaches.len() {
        if meets_one(reaches[i], &reaches[i + 1..]) {
            return true;
        }
    }
    false
}

/// What each item of a list reaches, in order.
fn all_reaches(alloc: Global, scopes: &Scopes, items: &[Item]) -> Result<Vec<Option<Reach>>, Memory>
    ensures { IfOk result (λ reaches. reaches.items ≡ map (reach_of scopes.now) items.now) }
{
    let mut reaches = Vec::new(alloc);
    for item in items {
        reaches.push(reach_of(scopes, *item))?;
    }
    Ok(reaches)
}

/// Whether two items of a list are one element for some values that their indices take together.
pub fn some_meet(alloc: Global, scopes: &Scopes, items: &[Item]) -> Result<bool, Memory>
    ensures { IfOk result (λ r. r ≡ some_meet scopes.now items.now) }
{
    let reaches = all_reaches(alloc, scopes, items)?;
    Ok(some_pair(&reaches))
}
