ghost use Rattle.std.specs.Prelude.{◌≡◌, ◌<◌, ◌++◌, ℕ, List, Some, length, OnOk, OnErr, IfOk};
ghost use Rattle.std.specs.List.{AllByRecursion};
ghost use Rattle.occ_parse_forms.specs.occ_lex.Symbols.{Extends};
ghost use Rattle.occ_parse_rules.specs.Places.{declared_in, entries_of, places};
ghost use Rattle.occ_parse_rules.specs.Unrolled.{all_named, item_number, named};
ghost use Rattle.occ_parse_unroll.specs.Elements.{all_places, item_places, with_place, brought};
ghost use Rattle.occ_parse_unroll.specs.Known.{IsKnownDeclared, IsKnownItem};
ghost use Rattle.occ_parse_unroll.specs.Numbers.{element_text as element_text_of, number_in, numbering};
ghost use Rattle.occ_parse_unroll.specs.Present.{values_of};

use crate::context::Context;
use crate::numbering::Numbering;
use occ_parse_forms::{Declared, Item};
use occ_parse_rules::Entry;
use occ_parse_scopes::sort_of;
use occ_syntax::{Kind, Memory, Name, Names, Scope, push_number};
use std::alloc::Global;

fn element_text(alloc: Global, array: &[u8], k: u16) -> Result<Vec<u8>, Memory>
    ensures { IfOk result (λ text. text.items ≡ element_text_of array.now k) }
{
    let mut text = Vec::from_slice(alloc, array)?;
    text.push(b'[')?;
    push_number(&mut text, u64::from(k))?;
    text.push(b']')?;
    Ok(text)
}

/// The number of an array's element, whose text is in the table from then on. It stays the same in every table that goes on
/// from the table behind it. Where memory runs out, the table is as before.
pub fn element(alloc: Global, names: &mut Names, array: Name, k: u16) -> Result<Name, Memory>
    requires { array.0 < length names.old }
    ensures number { IfOk result (λ name. (t : List (List ℕ)) → Extends names.new t → name.0 ≡ number_in t array.0 (Some k)) }
    ensures table { OnOk result (names.new ≡ with_place names.old array.0 (Some k)) }
    ensures err { OnErr result (names.new ≡ names.old) }
    ensures extends { Extends names.old names.new }
{
    let text = element_text(alloc, names.text(array), k)?;
    names.intern(text.as_slice())
}

/// The number of what an item names, and 0 where its index is below 0.
pub fn item_name<S: Numbering>(
    source: &S,
    names: &mut Names,
    context: &Context,
    item: Item,
) -> Result<Name, Memory>
    requires { S.asks source.now → IsKnownItem (length names.old) item }
    ensures number { IfOk result (λ name. (t : List (List ℕ)) → Extends names.new t
        → name.0 ≡ item_number (numbering (S.number source.now t)) (values_of context.now.values) item) }
    ensures table { OnOk result (names.new ≡ brought (S.brings source.now) names.old (item_places (values_of context.now.values) item)) }
    ensures extends { Extends names.old names.new }
{
    match item.index {
        None => Ok(item.name),
        Some(index) => match context.values.at(index) {
            Some(k) => source.element(names, item.name, k),
            None => Ok(Name(0)),
        },
    }
}

/// Brings what a line declares into scope, and adds its names with their kind at the end of those that wait for their
/// process.
pub fn declare<S: Numbering>(
    source: &S,
    names: &mut Names,
    context: &mut Context,
    kind: Kind,
    declared: &[Declared],
    waiting: &mut Scope,
) -> Result<(), Memory>
    requires { S.asks source.now → AllByRecursion (IsKnownDeclared (length names.old)) declared.now }
    ensures scopes { OnOk result (context.new.scopes ≡ declared_in context.old.scopes (entries_of kind declared.now)) }
    ensures values { OnOk result (context.new.values ≡ context.old.values) }
    ensures waiting { OnOk result ((t : List (List ℕ)) → Extends names.new t
        → waiting.new ≡ waiting.old ++ all_named (numbering (S.number source.now t)) kind declared.now) }
    ensures table { OnOk result (names.new ≡ brought (S.brings source.now) names.old (all_places declared.now)) }
    ensures extends { Extends names.old names.new }
{
    for d in declared {
        context.scopes.declare(Entry {
            declared: *d,
            sort: sort_of(kind),
        })?;
        name_places(source, names, kind, *d, waiting)?;
    }
    Ok(())
}

/// Adds the names that a declaration declares, with their kind.
pub fn name_places<S: Numbering>(
    source: &S,
    names: &mut Names,
    kind: Kind,
    declared: Declared,
    waiting: &mut Scope,
) -> Result<(), Memory>
    requires { S.asks source.now → IsKnownDeclared (length names.old) declared }
    ensures waiting { OnOk result ((t : List (List ℕ)) → Extends names.new t → waiting.new ≡ waiting.old ++ named (numbering (S.number source.now t)) kind declared) }
    ensures table { OnOk result (names.new ≡ brought (S.brings source.now) names.old (places declared)) }
    ensures extends { Extends names.old names.new }
{
    match declared {
        Declared::Plain(name) => waiting.push((name, kind)),
        Declared::Element(array, k) => {
            waiting.push((source.element(names, array, u16::from(k))?, kind))
        }
        Declared::Array(array, count) => name_elements(source, names, kind, array, count, waiting),
    }
}

fn name_elements<S: Numbering>(
    source: &S,
    names: &mut Names,
    kind: Kind,
    array: Name,
    count: u8,
    waiting: &mut Scope,
) -> Result<(), Memory>
    requires { S.asks source.now → array.0 < length names.old }
    ensures waiting { OnOk result ((t : List (List ℕ)) → Extends names.new t
        → waiting.new ≡ waiting.old ++ named (numbering (S.number source.now t)) kind (Declared.Array array count)) }
    ensures table { OnOk result (names.new ≡ brought (S.brings source.now) names.old (places (Declared.Array array count))) }
    ensures extends { Extends names.old names.new }
{
    for k in 0..count {
        let name = source.element(names, array, u16::from(k))?;
        waiting.push((name, kind))?;
    }
    Ok(())
}
