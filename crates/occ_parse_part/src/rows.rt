//! The elements of arrays in the table of names.

ghost use Rattle.std.specs.Prelude.{◌≡◌, ◌<◌, ℕ, List, length, IfOk, OnOk};
ghost use Rattle.std.specs.List.{AllByRecursion};
ghost use Rattle.occ_syntax.specs.occ_base.Names.{IsDistinct};
ghost use Rattle.occ_parse_rules.specs.Places.{elements_from};
ghost use Rattle.occ_parse_forms.specs.occ_lex.Symbols.{Extends};
ghost use Rattle.occ_parse.specs.occ_parse_unroll.Elements.{with_places};
ghost use Rattle.occ_parse_part.specs.Elements.{elements_in, row_in, with_arrays};
ghost use Rattle.occ_parse_part.specs.Seen.{seen};

use crate::elements::Elements;
use occ_parse::element;
use occ_syntax::{Memory, Name, Names};
use std::alloc::Global;

/// How many elements of an array have names.
const COUNT: u16 = 256;

/// The names of the first elements of an array, so many. They are in the table then.
fn row(alloc: Global, names: &mut Names, array: Name, count: u16) -> Result<Vec<Name>, Memory>
    requires { array.0 < length names.old }
    ensures row { IfOk result (λ row. (t : List (List ℕ)) → Extends names.new t → row.items ≡ row_in t array.0 0 count) }
    ensures length { IfOk result (λ row. length row.items ≡ count) }
    ensures table { OnOk result (names.new ≡ with_places names.old (elements_from array.0 0 count)) }
    ensures extends { Extends names.old names.new }
    ensures distinct { OnOk result (IsDistinct names.new) }
{
    // Each text stands once in the table.
    let _ = names.text(array);
    let mut row = Vec::new(alloc);
    for k in 0..count {
        row.push(element(alloc, names, array, k)?)?;
    }
    Ok(row)
}

/// The elements 0 to 255 of arrays. They are in the table then.
pub fn elements(alloc: Global, names: &mut Names, arrays: &[Name]) -> Result<Elements, Memory>
    requires { AllByRecursion (λ (x : Name). x.0 < length names.old) arrays.now }
    ensures elements { IfOk result (λ e. (t : List (List ℕ)) → Extends names.new t → seen e ≡ elements_in t arrays.now) }
    ensures table { OnOk result (names.new ≡ with_arrays names.old arrays.now) }
    ensures extends { Extends names.old names.new }
    ensures distinct { OnOk result (0 < length arrays.now → IsDistinct names.new) }
{
    let mut elements = Elements::new(alloc);
    for array in arrays {
        elements.add(*array, row(alloc, names, *array, COUNT)?)?;
    }
    Ok(elements)
}
