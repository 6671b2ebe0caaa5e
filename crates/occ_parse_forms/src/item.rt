ghost use Rattle.std.specs.Prelude.{◌≡◌};
ghost use Rattle.occ_parse_forms.specs.Gives.{Finds, Gives};
ghost use Rattle.occ_parse_forms.specs.Reading.{index_first, item_behind, item_of, moved};
ghost use Rattle.occ_parse_forms.specs.Symbols.{each, groups_of};

use crate::cursor::{alone, behind_sign, behind_word, groups, name_first, numeral_first};
use crate::fault::Fault;
use crate::{Index, Item, Items};
use occ_lex::{Keyword, Name, Sign, Symbol};
use std::alloc::Global;

/// An index that begins with a name: the name alone, or with a numeral that is added or taken away.
fn moved(name: Name, symbols: &[Symbol]) -> Option<(Index, &[Symbol])>
    ensures { Finds (λ found. (found.0, found.1.now)) result (moved name symbols.now) }
{
    if let Some(rest) = behind_word(symbols, Keyword::Plus) {
        let (value, rest) = numeral_first(rest)?;
        return Some((Index::Plus(name, value), rest));
    }
    if let Some(rest) = behind_word(symbols, Keyword::Minus) {
        let (value, rest) = numeral_first(rest)?;
        return Some((Index::Minus(name, value), rest));
    }
    Some((Index::Name(name), symbols))
}

#[tactic(auto, unfolding(crate::specs::Reading::index_first))]
fn index_first(symbols: &[Symbol]) -> Option<(Index, &[Symbol])>
    ensures { Finds (λ found. (found.0, found.1.now)) result (index_first symbols.now) }
{
    if let Some((value, rest)) = numeral_first(symbols) {
        return Some((Index::Number(value), rest));
    }
    let (name, rest) = name_first(symbols)?;
    moved(name, rest)
}

/// An item of that name, by what stands behind the name.
#[tactic(auto, unfolding(crate::specs::Reading::item_behind))]
pub fn item_behind(name: Name, symbols: &[Symbol]) -> Option<(Item, &[Symbol])>
    ensures { Finds (λ found. (found.0, found.1.now)) result (item_behind name symbols.now) }
{
    let Some(rest) = behind_sign(symbols, Sign::OpenIndex) else {
        return Some((Item { name, index: None }, symbols));
    };
    let (index, rest) = index_first(rest)?;
    let rest = behind_sign(rest, Sign::CloseIndex)?;
    let index = Some(index);
    Some((Item { name, index }, rest))
}

/// The item that the symbols are.
#[tactic(auto, unfolding(crate::specs::Reading::item_of))]
pub fn item(symbols: &[Symbol]) -> Option<Item>
    ensures { result ≡ item_of symbols.now }
{
    let (name, rest) = name_first(symbols)?;
    let (item, rest) = item_behind(name, rest)?;
    alone(item, rest)
}

/// The items between commas.
pub fn items(alloc: Global, symbols: &[Symbol]) -> Result<Items, Fault>
    ensures { Gives (λ items. items) result (each item_of (groups_of symbols.now)) }
{
    let mut items = Items::new(alloc);
    for group in &groups(alloc, symbols)? {
        match item(group) {
            Some(item) => items.push(item)?,
            None => return Err(Fault::Form),
        }
    }
    Ok(items)
}
