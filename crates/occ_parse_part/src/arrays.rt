//! The arrays of which lines name elements.

ghost use Rattle.std.specs.Prelude.{◌≡◌, [], ◌∷◌, ◌++◌, OnOk, IfOk};
ghost use Rattle.std.specs.List.{flat_map};
ghost use Rattle.occ_parse.specs.occ_names.Once.{same_number, with_all};
ghost use Rattle.occ_parse_forms.specs.Shape.{all_said, said, shape, waiting};
ghost use Rattle.occ_parse_forms.specs.declared.form.Param.{Param};
ghost use Rattle.occ_parse_rules.specs.Forest.{Laid};
ghost use Rattle.occ_parse_rules.specs.Names.{items_in, items_in_all, items_of_waiting};
ghost use Rattle.occ_parse.specs.occ_parse_layout.Layout.{laid_rows};
ghost use Rattle.occ_parse_part.specs.Arrays.{arrays_of, declared_array, item_array, line_arrays};

use occ_parse::{NameSet, ParseLayoutPlaced as Placed};
use occ_parse_forms::{Declared, Form, Item, Param, Phrase, Wants};
use occ_syntax::Memory;
use std::alloc::Global;

fn add_item(arrays: &mut NameSet, item: Item) -> Result<(), Memory>
    ensures { OnOk result (arrays.new ≡ with_all same_number arrays.old (item_array item)) }
{
    match item.index {
        Some(_) => arrays.insert(item.name),
        None => Ok(()),
    }
}

fn add_items(arrays: &mut NameSet, items: &[Item]) -> Result<(), Memory>
    ensures { OnOk result (arrays.new ≡ with_all same_number arrays.old (flat_map item_array items.now)) }
{
    for item in items {
        add_item(arrays, *item)?;
    }
    Ok(())
}

fn add_phrase(arrays: &mut NameSet, phrase: &Phrase) -> Result<(), Memory>
    ensures { OnOk result (arrays.new ≡ with_all same_number arrays.old (flat_map item_array (items_in (said phrase.now)))) }
{
    match phrase {
        Phrase::Item(item) => add_item(arrays, *item),
        Phrase::Numeral(_) => Ok(()),
        Phrase::Typed(_, _) => Ok(()),
        Phrase::Truth(_) => Ok(()),
        Phrase::Not(operand) => add_phrase(arrays, operand),
        Phrase::Flip(operand) => add_phrase(arrays, operand),
        Phrase::Two(_, left, right) => {
            add_phrase(arrays, left)?;
            add_phrase(arrays, right)
        }
    }
}

fn add_phrases(arrays: &mut NameSet, phrases: &[Phrase]) -> Result<(), Memory>
    ensures { OnOk result (arrays.new ≡ with_all same_number arrays.old (flat_map item_array (items_in_all (all_said phrases.now)))) }
{
    for phrase in phrases {
        add_phrase(arrays, phrase)?;
    }
    Ok(())
}

fn add_sides(arrays: &mut NameSet, left: &[Item], right: &[Phrase]) -> Result<(), Memory>
    ensures { OnOk result (arrays.new ≡ with_all same_number arrays.old (flat_map item_array (left.now ++ items_in_all (all_said right.now)))) }
{
    add_items(arrays, left)?;
    add_phrases(arrays, right)
}

fn add_input(arrays: &mut NameSet, chan: Item, var: Item) -> Result<(), Memory>
    ensures { OnOk result (arrays.new ≡ with_all same_number arrays.old (flat_map item_array (chan ∷ var ∷ []))) }
{
    add_item(arrays, chan)?;
    add_item(arrays, var)
}

fn add_output(arrays: &mut NameSet, chan: Item, value: &Phrase) -> Result<(), Memory>
    ensures { OnOk result (arrays.new ≡ with_all same_number arrays.old (flat_map item_array (chan ∷ items_in (said value.now)))) }
{
    add_item(arrays, chan)?;
    add_phrase(arrays, value)
}

fn add_wants(arrays: &mut NameSet, wants: &Wants) -> Result<(), Memory>
    ensures { OnOk result (arrays.new ≡ with_all same_number arrays.old (flat_map item_array (items_of_waiting (waiting wants.now)))) }
{
    match wants {
        Wants::Skip => Ok(()),
        Wants::Input { chan, var } => add_input(arrays, *chan, *var),
        Wants::Output { chan, value } => add_output(arrays, *chan, value),
    }
}

fn add_guard(arrays: &mut NameSet, condition: &Phrase, wants: &Wants) -> Result<(), Memory>
    ensures { OnOk result (arrays.new ≡ with_all same_number arrays.old (flat_map item_array (items_in (said condition.now) ++ items_of_waiting (waiting wants.now)))) }
{
    add_phrase(arrays, condition)?;
    add_wants(arrays, wants)
}

fn add_declared(arrays: &mut NameSet, declared: Declared) -> Result<(), Memory>
    ensures { OnOk result (arrays.new ≡ with_all same_number arrays.old (declared_array declared)) }
{
    match declared {
        Declared::Plain(_) => Ok(()),
        Declared::Element(array, _) => arrays.insert(array),
        Declared::Array(array, _) => arrays.insert(array),
    }
}

fn add_all_declared(arrays: &mut NameSet, declared: &[Declared]) -> Result<(), Memory>
    ensures { OnOk result (arrays.new ≡ with_all same_number arrays.old (flat_map declared_array declared.now)) }
{
    for one in declared {
        add_declared(arrays, *one)?;
    }
    Ok(())
}

fn add_params(arrays: &mut NameSet, params: &[Param]) -> Result<(), Memory>
    ensures { OnOk result (arrays.new ≡ with_all same_number arrays.old (flat_map (λ (p : Param). declared_array p.declared) params.now)) }
{
    for param in params {
        add_declared(arrays, param.declared)?;
    }
    Ok(())
}

/// Adds the arrays that a line names.
fn add_line(arrays: &mut NameSet, form: &Form) -> Result<(), Memory>
    ensures { OnOk result (arrays.new ≡ with_all same_number arrays.old (line_arrays (shape form.now))) }
{
    match form {
        Form::Header { params, .. } => add_params(arrays, params.items()),
        Form::Declare(declaration) => add_all_declared(arrays, declaration.declared.items()),
        Form::Assign { left, right } => add_sides(arrays, left.items(), right.items()),
        Form::Input { chan, var } => add_input(arrays, *chan, *var),
        Form::Output { chan, value } => add_output(arrays, *chan, value),
        Form::Condition(condition) => add_phrase(arrays, condition),
        Form::Guard { condition, wants } => add_guard(arrays, condition, wants),
        Form::Close => Ok(()),
        Form::Skip => Ok(()),
        Form::Stop => Ok(()),
        Form::Group { .. } => Ok(()),
        Form::Nothing => Ok(()),
    }
}

/// The arrays that lines name, each once, where it is named first.
pub fn arrays(alloc: Global, lines: &[Placed]) -> Result<NameSet, Memory>
    ensures { IfOk result (λ arrays. arrays ≡ arrays_of (laid_rows lines.now)) }
{
    let mut arrays = NameSet::new(alloc);
    for line in lines {
        add_line(&mut arrays, &line.form)?;
    }
    Ok(arrays)
}
