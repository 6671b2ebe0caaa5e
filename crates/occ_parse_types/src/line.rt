ghost use Rattle.std.specs.Prelude.{◌≡◌, ◌∷◌, ◌++◌, [], true, is_none};
ghost use Rattle.std.specs.List.{list_any};
ghost use Rattle.occ_parse_forms.specs.Shape.{all_said, said, shape, waiting};
ghost use Rattle.occ_parse_rules.specs.Names.{items_in, items_in_all, items_of_waiting, uses};
ghost use Rattle.occ_parse_rules.specs.Places.{for_some};
ghost use Rattle.occ_parse_rules.specs.Types.{channel_here, has_untyped, line_clashes, line_untyped, pairs_clash, value_clashes, variable_here, waiting_clashes, waiting_untyped, widths_differ};
ghost use Rattle.occ_parse_types.specs.Asking.{AllThere, plain_counters};
ghost use Rattle.occ_parse_types.specs.Lines.{place_width};

use crate::asking::{Asker, Place, Test};
use crate::expression::{clashes, item_clashes, item_width, untyped};
use crate::turns::some_value;
use occ_parse_forms::{Form, Item, Phrase, Wants};
use occ_parse_scopes::Scopes;
use occ_syntax::Width;

/// Whether an item stands for something else than its place on the line wants, for some values of the indices.
fn misplaced(scopes: &Scopes, place: Place, item: Item) -> bool
    ensures { result ≡ for_some scopes.now (λ ρ. is_none (place_width scopes.now place item ρ)) }
{
    match place {
        Place::Variable => some_value(scopes, item, Test::NotVariable),
        Place::Channel => some_value(scopes, item, Test::NotChannel),
    }
}

/// Whether an item isn't what its place wants, or a value for it has another type, for some values of the indices.
fn value_clashes(scopes: &Scopes, place: Place, item: Item, value: &Phrase) -> bool
    requires kept { plain_counters scopes.now ≡ true }
    requires item { AllThere scopes.now (item ∷ []) }
    requires value { AllThere scopes.now (items_in (said value.now)) }
    ensures { result ≡ for_some scopes.now (λ ρ. value_clashes scopes.now ρ (place_width scopes.now place item ρ) (said value.now)) }
{
    if misplaced(scopes, place, item) {
        return true;
    }
    match item_width(scopes, item) {
        Some(asker) => clashes(scopes, value, asker),
        None => false,
    }
}

/// Whether an input's channel is none, or its variable is none or has another width, for some values of the indices.
fn input_clashes(scopes: &Scopes, chan: Item, var: Item) -> bool
    requires kept { plain_counters scopes.now ≡ true }
    requires chan { AllThere scopes.now (chan ∷ []) }
    ensures { result ≡ for_some scopes.now (λ ρ. widths_differ (channel_here scopes.now ρ chan) (variable_here scopes.now ρ var)) }
{
    if misplaced(scopes, Place::Channel, chan) {
        return true;
    }
    if misplaced(scopes, Place::Variable, var) {
        return true;
    }
    match item_width(scopes, chan) {
        Some(asker) => item_clashes(scopes, var, asker),
        None => false,
    }
}

fn pairs_clash(scopes: &Scopes, left: &[Item], right: &[Phrase]) -> bool
    requires kept { plain_counters scopes.now ≡ true }
    requires left { AllThere scopes.now left.now }
    requires right { AllThere scopes.now (items_in_all (all_said right.now)) }
    ensures { result ≡ for_some scopes.now (λ ρ. pairs_clash scopes.now ρ left.now (all_said right.now)) }
{
    for k in 0..left.len() {
        if k == right.len() {
            return false;
        }
        if value_clashes(scopes, Place::Variable, left[k], &right[k]) {
            return true;
        }
    }
    false
}

fn wants_clash(scopes: &Scopes, wants: &Wants) -> bool
    requires kept { plain_counters scopes.now ≡ true }
    requires there { AllThere scopes.now (items_of_waiting (waiting wants.now)) }
    ensures { result ≡ for_some scopes.now (λ ρ. waiting_clashes scopes.now ρ (waiting wants.now)) }
{
    match wants {
        Wants::Skip => false,
        Wants::Input { chan, var } => input_clashes(scopes, *chan, *var),
        Wants::Output { chan, value } => value_clashes(scopes, Place::Channel, *chan, value),
    }
}

/// Whether a line has types that differ for some values of the indices.
pub fn line_clashes(scopes: &Scopes, form: &Form) -> bool
    requires kept { plain_counters scopes.now ≡ true }
    requires there { AllThere scopes.now (uses (shape form.now)) }
    ensures { result ≡ for_some scopes.now (λ ρ. line_clashes scopes.now ρ (shape form.now)) }
{
    match form {
        Form::Assign { left, right } => pairs_clash(scopes, left.items(), right.items()),
        Form::Input { chan, var } => input_clashes(scopes, *chan, *var),
        Form::Output { chan, value } => value_clashes(scopes, Place::Channel, *chan, value),
        Form::Condition(condition) => clashes(scopes, condition, Asker::Fixed(Width::Bool)),
        Form::Guard { condition, wants } => {
            clashes(scopes, condition, Asker::Fixed(Width::Bool)) || wants_clash(scopes, wants)
        }
        _ => false,
    }
}

fn some_untyped(scopes: &Scopes, phrases: &[Phrase]) -> bool
    requires kept { plain_counters scopes.now ≡ true }
    requires there { AllThere scopes.now (items_in_all (all_said phrases.now)) }
    ensures { result ≡ for_some scopes.now (λ ρ. list_any (has_untyped scopes.now ρ) (all_said phrases.now)) }
{
    for k in 0..phrases.len() {
        if untyped(scopes, &phrases[k]) {
            return true;
        }
    }
    false
}

fn wants_untyped(scopes: &Scopes, wants: &Wants) -> bool
    requires kept { plain_counters scopes.now ≡ true }
    requires there { AllThere scopes.now (items_of_waiting (waiting wants.now)) }
    ensures { result ≡ for_some scopes.now (λ ρ. waiting_untyped scopes.now ρ (waiting wants.now)) }
{
    match wants {
        Wants::Skip => false,
        Wants::Input { .. } => false,
        Wants::Output { value, .. } => untyped(scopes, value),
    }
}

/// Whether a line has a comparison of two operands without a width.
pub fn line_untyped(scopes: &Scopes, form: &Form) -> bool
    requires kept { plain_counters scopes.now ≡ true }
    requires there { AllThere scopes.now (uses (shape form.now)) }
    ensures { result ≡ for_some scopes.now (λ ρ. line_untyped scopes.now ρ (shape form.now)) }
{
    match form {
        Form::Assign { right, .. } => some_untyped(scopes, right.items()),
        Form::Output { value, .. } => untyped(scopes, value),
        Form::Condition(condition) => untyped(scopes, condition),
        Form::Guard { condition, wants } => {
            untyped(scopes, condition) || wants_untyped(scopes, wants)
        }
        _ => false,
    }
}
