ghost use Rattle.std.specs.Prelude.{◌≡◌};
ghost use Rattle.std.specs.List.{list_any};
ghost use Rattle.occ_parse_forms.specs.Shape.{all_said, said, shape, waiting};
ghost use Rattle.occ_parse_rules.specs.Names.{index_name, is_outside, is_undeclared, items_in, items_in_all, items_of_waiting, name_missing, uses};
ghost use Rattle.occ_parse_scopes.specs.Checking.{fails};

use crate::Scopes;
use crate::reach::{leaves, reach_of};
use occ_parse_forms::{Form, Index, Item, Phrase, Wants};

/// What can be wrong with an item.
#[derive(Clone, Copy, Debug)]
pub enum Check {
    /// It isn't in scope.
    Undeclared,
    /// It is an element that isn't in scope for some value of its index.
    Outside,
}

/// Whether the name in an index isn't in scope.
fn name_missing(scopes: &Scopes, index: Index) -> bool
    ensures { result ≡ name_missing scopes.now (index_name index) }
{
    match index {
        Index::Number(_) => false,
        Index::Name(i) => scopes.sort(i, None).is_none(),
        Index::Plus(i, _) => scopes.sort(i, None).is_none(),
        Index::Minus(i, _) => scopes.sort(i, None).is_none(),
    }
}

/// Whether an item isn't in scope.
fn is_undeclared(scopes: &Scopes, item: Item) -> bool
    ensures { result ≡ is_undeclared scopes.now item }
{
    match item.index {
        None => scopes.sort(item.name, None).is_none(),
        Some(index) => !scopes.has_elements(item.name) || name_missing(scopes, index),
    }
}

/// Whether an item is an element that isn't in scope for some value of its index.
fn is_outside(scopes: &Scopes, item: Item) -> bool
    ensures { result ≡ is_outside scopes.now item }
{
    match reach_of(scopes, item) {
        Some(reach) => leaves(scopes, reach),
        None => false,
    }
}

impl Check {
    /// Whether an item fails the check. It takes no memory.
    fn fails(self, scopes: &Scopes, item: Item) -> bool
        ensures { result ≡ fails self scopes.now item }
    {
        match self {
            Check::Undeclared => is_undeclared(scopes, item),
            Check::Outside => is_outside(scopes, item),
        }
    }

    /// Whether an item of a list fails the check.
    fn fails_among(self, scopes: &Scopes, items: &[Item]) -> bool
        ensures { result ≡ list_any (fails self scopes.now) items.now }
    {
        for item in items {
            if self.fails(scopes, *item) {
                return true;
            }
        }
        false
    }

    /// Whether an item of an expression fails the check.
    fn fails_in(self, scopes: &Scopes, phrase: &Phrase) -> bool
        ensures { result ≡ list_any (fails self scopes.now) (items_in (said phrase.now)) }
    {
        match phrase {
            Phrase::Item(item) => self.fails(scopes, *item),
            Phrase::Numeral(_) => false,
            Phrase::Typed(_, _) => false,
            Phrase::Truth(_) => false,
            Phrase::Not(operand) => self.fails_in(scopes, operand),
            Phrase::Flip(operand) => self.fails_in(scopes, operand),
            Phrase::Two(_, left, right) => {
                self.fails_in(scopes, left) || self.fails_in(scopes, right)
            }
        }
    }

    /// Whether an item of some of the expressions fails the check.
    fn fails_in_some(self, scopes: &Scopes, phrases: &[Phrase]) -> bool
        ensures { result
            ≡ list_any (fails self scopes.now) (items_in_all (all_said phrases.now)) }
    {
        for phrase in phrases {
            if self.fails_in(scopes, phrase) {
                return true;
            }
        }
        false
    }

    /// Whether an item of what a guard waits for fails the check.
    fn fails_waiting(self, scopes: &Scopes, wants: &Wants) -> bool
        ensures { result
            ≡ list_any (fails self scopes.now) (items_of_waiting (waiting wants.now)) }
    {
        match wants {
            Wants::Skip => false,
            Wants::Input { chan, var } => self.fails(scopes, *chan) || self.fails(scopes, *var),
            Wants::Output { chan, value } => {
                self.fails(scopes, *chan) || self.fails_in(scopes, value)
            }
        }
    }

    /// Whether an item that a line uses fails the check. It takes no memory.
    pub fn fails_on(self, scopes: &Scopes, form: &Form) -> bool
        ensures { result ≡ list_any (fails self scopes.now) (uses (shape form.now)) }
    {
        match form {
            Form::Assign { left, right } => {
                self.fails_among(scopes, left.items()) || self.fails_in_some(scopes, right.items())
            }
            Form::Input { chan, var } => self.fails(scopes, *chan) || self.fails(scopes, *var),
            Form::Output { chan, value } => {
                self.fails(scopes, *chan) || self.fails_in(scopes, value)
            }
            Form::Condition(condition) => self.fails_in(scopes, condition),
            Form::Guard { condition, wants } => {
                self.fails_in(scopes, condition) || self.fails_waiting(scopes, wants)
            }
            _ => false,
        }
    }
}
