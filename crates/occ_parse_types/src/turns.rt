ghost use Rattle.std.specs.Prelude.{◌≡◌, ◌+◌, ◌≤◌, true, false, Some, None, is_some};
ghost use Rattle.occ_parse_rules.specs.Names.{index_counts, is_counter};
ghost use Rattle.occ_parse_rules.specs.Places.{for_some, index_at, numbers_from, sort_at};
ghost use Rattle.occ_parse_rules.specs.Types.{sort_here};
ghost use Rattle.occ_parse_types.specs.Asking.{holds_of, items_clash, plain_counters};
ghost use Rattle.occ_parse_types.specs.Turns.{name_in, same_name, sort_turn, turns, turns_of};

use crate::asking::{Test, holds_of, sort_clashes, width_of_sort};
use occ_parse_forms::{Index, Item};
use occ_parse_rules::Sort;
use occ_parse_scopes::Scopes;
use occ_syntax::Name;

/// The number of the name in an index.
fn name_in(index: Option<Index>) -> Option<usize>
    ensures { result ≡ name_in index }
{
    match index {
        None => None,
        Some(Index::Number(_)) => None,
        Some(Index::Name(name)) => Some(name.0),
        Some(Index::Plus(name, _)) => Some(name.0),
        Some(Index::Minus(name, _)) => Some(name.0),
    }
}

/// Whether an item has an index in which a name stands.
pub fn has_name(index: Option<Index>) -> bool
    ensures { result ≡ is_some (name_in index) }
{
    name_in(index).is_some()
}

/// Whether two items have the same name in their indices.
pub fn same_name(left: Option<Index>, right: Option<Index>) -> bool
    ensures { result ≡ same_name (name_in left) (name_in right) }
{
    match name_in(left) {
        Some(one) => match name_in(right) {
            Some(other) => one == other,
            None => false,
        },
        None => false,
    }
}

/// Whether an item has an index that is a numeral or names a replicator's index.
pub fn index_counts(scopes: &Scopes, index: Option<Index>) -> bool
    ensures { result ≡ index_counts scopes.now index }
{
    match index {
        None => false,
        Some(Index::Number(_)) => true,
        Some(Index::Name(name)) => is_counter(scopes, name),
        Some(Index::Plus(name, _)) => is_counter(scopes, name),
        Some(Index::Minus(name, _)) => is_counter(scopes, name),
    }
}

fn is_counter(scopes: &Scopes, name: Name) -> bool
    ensures { result ≡ is_counter (sort_at scopes.now name.0 None) }
{
    matches!(scopes.sort(name, None), Some(Sort::Counter { .. }))
}

/// The first of the values that the name in an item's index takes, and how many there are.
fn turns(scopes: &Scopes, item: Item) -> (u16, u16)
    ensures numbers { numbers_from result.0 result.1 ≡ turns scopes.now item }
    ensures least { 1 ≤ result.1 }
    ensures most { result.0 + result.1 ≤ 510 }
{
    match item.index {
        None => (0, 1),
        Some(Index::Number(_)) => (0, 1),
        Some(Index::Name(name)) => named_turns(scopes, name),
        Some(Index::Plus(name, _)) => named_turns(scopes, name),
        Some(Index::Minus(name, _)) => named_turns(scopes, name),
    }
}

fn named_turns(scopes: &Scopes, name: Name) -> (u16, u16)
    ensures numbers { numbers_from result.0 result.1 ≡ turns_of (sort_at scopes.now name.0 None) }
    ensures least { 1 ≤ result.1 }
    ensures most { result.0 + result.1 ≤ 510 }
{
    match scopes.sort(name, None) {
        Some(Sort::Counter { base, count }) => {
            let many = if count == 0 { 1 } else { u16::from(count) };
            (u16::from(base), many)
        }
        _ => (0, 1),
    }
}

/// The element that an index names where the name in it has that value.
fn element(index: Index, value: u16) -> Option<u16>
    requires { value ≤ 510 }
    ensures { result ≡ index_at (λ x. value) index }
{
    match index {
        Index::Number(k) => Some(u16::from(k)),
        Index::Name(_) => Some(value),
        Index::Plus(_, k) => Some(value + u16::from(k)),
        Index::Minus(_, k) => value.checked_sub(u16::from(k)),
    }
}

/// What an item stands for where the name in its index has that value.
pub fn sort_turn(scopes: &Scopes, item: Item, value: u16) -> Option<Sort>
    requires { value ≤ 510 }
    ensures { result ≡ sort_turn scopes.now item value }
{
    match item.index {
        None => scopes.sort(item.name, None),
        Some(index) if index_counts(scopes, item.index) => match element(index, value) {
            Some(place) => scopes.sort(item.name, Some(place)),
            None => None,
        },
        Some(_) => None,
    }
}

/// Whether a test holds of what an item stands for, for some values of the indices.
pub fn some_value(scopes: &Scopes, item: Item, test: Test) -> bool
    ensures { result ≡ for_some scopes.now (λ ρ. holds_of test (sort_here scopes.now ρ item)) }
{
    let (first, many) = turns(scopes, item);
    for value in first..first + many {
        if holds_of(test, sort_turn(scopes, item, value)) {
            return true;
        }
    }
    false
}

/// Whether an item can't stand for a value of the width of another one, where the names in the indices of both have
/// that value.
fn clash_in_turn(scopes: &Scopes, item: Item, asker: Item, value: u16) -> bool
    requires { value ≤ 510 }
    ensures { result ≡ items_clash (sort_turn scopes.now asker value) (sort_turn scopes.now item value) }
{
    match width_of_sort(sort_turn(scopes, asker, value)) {
        Some(width) => sort_clashes(width, sort_turn(scopes, item, value)),
        None => false,
    }
}

/// Whether an item can't stand for a value of the width of another one, for some values of the indices, where the same
/// name stands in the indices of both.
pub fn clash_together(scopes: &Scopes, item: Item, asker: Item) -> bool
    requires { same_name (name_in asker.index) (name_in item.index) ≡ true }
    ensures { result ≡ for_some scopes.now (λ ρ. items_clash (sort_here scopes.now ρ asker) (sort_here scopes.now ρ item)) }
{
    let (first, many) = turns(scopes, asker);
    for value in first..first + many {
        if clash_in_turn(scopes, item, asker, value) {
            return true;
        }
    }
    false
}

/// Whether an item can't stand for a value of the width of another one, where the name in the other one's index has
/// that value, for some values of the other indices.
fn clash_from_turn(scopes: &Scopes, item: Item, asker: Item, value: u16) -> bool
    requires { value ≤ 510 }
    ensures { result ≡ for_some scopes.now (λ ρ. items_clash (sort_turn scopes.now asker value) (sort_here scopes.now ρ item)) }
{
    match width_of_sort(sort_turn(scopes, asker, value)) {
        Some(width) => some_value(scopes, item, Test::Clashes(width)),
        None => false,
    }
}

/// Whether an item can't stand for a value of the width of another one, for some values of the indices, where no name
/// stands in the indices of both: each value of the one with each of the other.
fn clash_each(scopes: &Scopes, item: Item, asker: Item) -> bool
    requires { same_name (name_in asker.index) (name_in item.index) ≡ false }
    ensures { result ≡ for_some scopes.now (λ ρ. items_clash (sort_here scopes.now ρ asker) (sort_here scopes.now ρ item)) }
{
    let (first, many) = turns(scopes, asker);
    for value in first..first + many {
        if clash_from_turn(scopes, item, asker, value) {
            return true;
        }
    }
    false
}

/// Whether an item can't stand for a value of the width of another one, for some values of the indices, where no name
/// stands in the indices of both. Two elements agree only where each has one width for all values.
pub fn clash_apart(scopes: &Scopes, item: Item, asker: Item) -> bool
    requires kept { plain_counters scopes.now ≡ true }
    requires differ { same_name (name_in asker.index) (name_in item.index) ≡ false }
    ensures { result ≡ for_some scopes.now (λ ρ. items_clash (sort_here scopes.now ρ asker) (sort_here scopes.now ρ item)) }
{
    if !has_name(item.index) {
        return clash_each(scopes, item, asker);
    }
    let (first, _) = turns(scopes, asker);
    match width_of_sort(sort_turn(scopes, asker, first)) {
        Some(width) => {
            some_value(scopes, item, Test::Clashes(width))
                || some_value(scopes, asker, Test::Differs(width))
        }
        None => clash_each(scopes, item, asker),
    }
}
