ghost use Rattle.std.specs.Prelude.{◌≡◌};
ghost use Rattle.std.specs.List.{list_any};
ghost use Rattle.occ_parse_forms.specs.Shape.{all_said, said, shape, waiting};
ghost use Rattle.occ_parse_rules.specs.Names.{items_in, items_in_all, items_of_waiting};
ghost use Rattle.occ_parse_rules.specs.Types.{has_lost};
ghost use Rattle.occ_parse_types.specs.Lines.{is_lost};

use crate::turns::index_counts;
use occ_parse_forms::{Form, Item, Phrase, Wants};
use occ_parse_scopes::Scopes;

/// Whether an item is an element whose index is neither a numeral nor a replicator's.
fn is_lost(scopes: &Scopes, item: Item) -> bool
    ensures { result ≡ is_lost scopes.now item }
{
    item.index.is_some() && !index_counts(scopes, item.index)
}

fn some_lost(scopes: &Scopes, items: &[Item]) -> bool
    ensures { result ≡ list_any (is_lost scopes.now) items.now }
{
    for item in items {
        if is_lost(scopes, *item) {
            return true;
        }
    }
    false
}

fn phrase_lost(scopes: &Scopes, phrase: &Phrase) -> bool
    ensures { result ≡ list_any (is_lost scopes.now) (items_in (said phrase.now)) }
{
    match phrase {
        Phrase::Item(item) => is_lost(scopes, *item),
        Phrase::Numeral(_) => false,
        Phrase::Typed(_, _) => false,
        Phrase::Truth(_) => false,
        Phrase::Not(operand) => phrase_lost(scopes, operand),
        Phrase::Flip(operand) => phrase_lost(scopes, operand),
        Phrase::Two(_, left, right) => phrase_lost(scopes, left) || phrase_lost(scopes, right),
    }
}

fn phrases_lost(scopes: &Scopes, phrases: &[Phrase]) -> bool
    ensures { result ≡ list_any (is_lost scopes.now) (items_in_all (all_said phrases.now)) }
{
    for k in 0..phrases.len() {
        if phrase_lost(scopes, &phrases[k]) {
            return true;
        }
    }
    false
}

fn wants_lost(scopes: &Scopes, wants: &Wants) -> bool
    ensures { result ≡ list_any (is_lost scopes.now) (items_of_waiting (waiting wants.now)) }
{
    match wants {
        Wants::Skip => false,
        Wants::Input { chan, var } => is_lost(scopes, *chan) || is_lost(scopes, *var),
        Wants::Output { chan, value } => is_lost(scopes, *chan) || phrase_lost(scopes, value),
    }
}

/// Whether a line has an element whose index is neither a numeral nor a replicator's.
pub fn has_lost(scopes: &Scopes, form: &Form) -> bool
    ensures { result ≡ has_lost scopes.now (shape form.now) }
{
    match form {
        Form::Assign { left, right } => {
            some_lost(scopes, left.items()) || phrases_lost(scopes, right.items())
        }
        Form::Input { chan, var } => is_lost(scopes, *chan) || is_lost(scopes, *var),
        Form::Output { chan, value } => is_lost(scopes, *chan) || phrase_lost(scopes, value),
        Form::Condition(condition) => phrase_lost(scopes, condition),
        Form::Guard { condition, wants } => {
            phrase_lost(scopes, condition) || wants_lost(scopes, wants)
        }
        _ => false,
    }
}
