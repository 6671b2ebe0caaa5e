ghost use Rattle.std.specs.Prelude.{◌≡◌, ◌&&◌, ◌||◌, true, is_none};
ghost use Rattle.occ_parse_forms.specs.Shape.{item as said_item, said};
ghost use Rattle.occ_parse_rules.specs.Names.{items_in};
ghost use Rattle.occ_parse_rules.specs.Places.{for_some};
ghost use Rattle.occ_parse_rules.specs.Types.{compares, has_untyped, if_asked, own, sort_clashes, sort_here};
ghost use Rattle.occ_parse_types.specs.Asking.{AllThere, HasWidth, IsWidth, asked_below, class_of, operands_width, operator_refuses, plain_counters, some_clash, some_refuse, width_asked};

use crate::asking::{Asked, Asker, Classed, Test, class, refuses_width, width_of_sort};
use crate::turns::{clash_apart, clash_together, has_name, same_name, some_value, sort_turn};
use occ_parse_forms::{Item, Phrase};
use occ_parse_scopes::Scopes;
use occ_syntax::Width;

/// The width of an item, whatever values the indices take; None where it has none.
pub fn item_width(scopes: &Scopes, item: Item) -> Option<Asker>
    requires kept { plain_counters scopes.now ≡ true }
    requires there { AllThere scopes.now (items_in (said_item item)) }
    ensures { IsWidth scopes.now (λ ρ. own scopes.now ρ (said_item item)) result }
{
    if has_name(item.index) {
        return Some(Asker::Like(item));
    }
    match width_of_sort(sort_turn(scopes, item, 0)) {
        Some(width) => Some(Asker::Fixed(width)),
        None => None,
    }
}

/// The width that an expression has of its own, whatever values the indices take; None where it has none.
fn own(scopes: &Scopes, phrase: &Phrase) -> Option<Asker>
    requires kept { plain_counters scopes.now ≡ true }
    requires there { AllThere scopes.now (items_in (said phrase.now)) }
    ensures { IsWidth scopes.now (λ ρ. own scopes.now ρ (said phrase.now)) result }
{
    match phrase {
        Phrase::Item(item) => item_width(scopes, *item),
        Phrase::Numeral(_) => None,
        Phrase::Typed(_, width) => Some(Asker::Fixed(*width)),
        Phrase::Truth(_) => Some(Asker::Fixed(Width::Bool)),
        Phrase::Not(_) => Some(Asker::Fixed(Width::Bool)),
        Phrase::Flip(operand) => own(scopes, operand),
        Phrase::Two(op, left, right) => match class(*op) {
            Classed::Words => match own(scopes, left) {
                Some(asker) => Some(asker),
                None => own(scopes, right),
            },
            _ => Some(Asker::Fixed(Width::Bool)),
        },
    }
}

/// The width of the left one of two operands, or of the right one where the left one has none.
fn operands(scopes: &Scopes, left: &Phrase, right: &Phrase) -> Option<Asker>
    requires kept { plain_counters scopes.now ≡ true }
    requires left { AllThere scopes.now (items_in (said left.now)) }
    requires right { AllThere scopes.now (items_in (said right.now)) }
    ensures { IsWidth scopes.now (λ ρ. operands_width scopes.now ρ (said left.now) (said right.now)) result }
{
    match own(scopes, left) {
        Some(asker) => Some(asker),
        None => own(scopes, right),
    }
}

/// Whether what is asked for a width hasn't got it, for some values of the indices.
fn refuses(scopes: &Scopes, asker: Asker, asked: Asked) -> bool
    ensures { result ≡ some_refuse scopes.now asker asked }
{
    match asker {
        Asker::Fixed(width) => refuses_width(asked, width),
        Asker::Like(item) => some_value(scopes, item, Test::Refused(asked)),
    }
}

/// Whether an item can't stand for a value of the width that is asked for, for some values of the indices.
pub fn item_clashes(scopes: &Scopes, item: Item, asker: Asker) -> bool
    requires { plain_counters scopes.now ≡ true }
    ensures { result ≡ for_some scopes.now (λ ρ. if_asked (width_asked scopes.now ρ asker) (λ w. sort_clashes w (sort_here scopes.now ρ item))) }
{
    match asker {
        Asker::Fixed(width) => some_value(scopes, item, Test::Clashes(width)),
        Asker::Like(other) => {
            if same_name(other.index, item.index) {
                clash_together(scopes, item, other)
            } else {
                clash_apart(scopes, item, other)
            }
        }
    }
}

/// Who asks the operands of an operator that is asked for a width.
fn operands_asker(
    scopes: &Scopes,
    class: Classed,
    asker: Asker,
    left: &Phrase,
    right: &Phrase,
) -> Option<Asker>
    requires kept { plain_counters scopes.now ≡ true }
    requires left { AllThere scopes.now (items_in (said left.now)) }
    requires right { AllThere scopes.now (items_in (said right.now)) }
    requires width { HasWidth scopes.now asker }
    ensures { IsWidth scopes.now (λ ρ. asked_below (class_of class) (width_asked scopes.now ρ asker) (operands_width scopes.now ρ (said left.now) (said right.now))) result }
{
    match class {
        Classed::Words => Some(asker),
        Classed::TruthValues => Some(Asker::Fixed(Width::Bool)),
        Classed::Comparing => operands(scopes, left, right),
        Classed::Ordering => operands(scopes, left, right),
    }
}

/// Whether an operator can't have the width that is asked for, or can't have operands of theirs, for some values of the
/// indices.
fn operator_refuses(scopes: &Scopes, class: Classed, asker: Asker, operands: Option<Asker>) -> bool
    requires { HasWidth scopes.now asker }
    ensures { result ≡ operator_refuses scopes.now (class_of class) asker operands }
{
    match class {
        Classed::Words => refuses(scopes, asker, Asked::Word),
        Classed::TruthValues => refuses(scopes, asker, Asked::Truth),
        Classed::Comparing => refuses(scopes, asker, Asked::Truth),
        Classed::Ordering => {
            refuses(scopes, asker, Asked::Truth)
                || match operands {
                    Some(width) => refuses(scopes, width, Asked::Word),
                    None => false,
                }
        }
    }
}

/// Whether an expression that is asked for a width has a part of another type, or a value that doesn't fit, for some
/// values of the indices.
pub fn clashes(scopes: &Scopes, phrase: &Phrase, asker: Asker) -> bool
    requires kept { plain_counters scopes.now ≡ true }
    requires there { AllThere scopes.now (items_in (said phrase.now)) }
    requires width { HasWidth scopes.now asker }
    ensures { result ≡ some_clash scopes.now asker (said phrase.now) }
{
    match phrase {
        Phrase::Item(item) => item_clashes(scopes, *item, asker),
        Phrase::Numeral(value) => refuses(scopes, asker, Asked::Numeral(*value)),
        Phrase::Typed(value, width) => refuses(scopes, asker, Asked::Typed(*value, *width)),
        Phrase::Truth(_) => refuses(scopes, asker, Asked::Truth),
        Phrase::Not(operand) => {
            refuses(scopes, asker, Asked::Truth)
                || clashes(scopes, operand, Asker::Fixed(Width::Bool))
        }
        Phrase::Flip(operand) => {
            refuses(scopes, asker, Asked::Word) || clashes(scopes, operand, asker)
        }
        Phrase::Two(op, left, right) => {
            let class = class(*op);
            let width = operands_asker(scopes, class, asker, left, right);
            operator_refuses(scopes, class, asker, width)
                || match width {
                    Some(asker) => clashes(scopes, left, asker) || clashes(scopes, right, asker),
                    None => false,
                }
        }
    }
}

/// Whether an expression has a comparison of two operands without a width.
pub fn untyped(scopes: &Scopes, phrase: &Phrase) -> bool
    requires kept { plain_counters scopes.now ≡ true }
    requires there { AllThere scopes.now (items_in (said phrase.now)) }
    ensures { result ≡ for_some scopes.now (λ ρ. has_untyped scopes.now ρ (said phrase.now)) }
{
    match phrase {
        Phrase::Item(_) => false,
        Phrase::Numeral(_) => false,
        Phrase::Typed(_, _) => false,
        Phrase::Truth(_) => false,
        Phrase::Not(operand) => untyped(scopes, operand),
        Phrase::Flip(operand) => untyped(scopes, operand),
        Phrase::Two(op, left, right) => {
            compares_unsettled(scopes, class(*op), left, right)
                || (untyped(scopes, left) || untyped(scopes, right))
        }
    }
}

/// Whether an operator compares two operands without a width.
fn compares_unsettled(scopes: &Scopes, class: Classed, left: &Phrase, right: &Phrase) -> bool
    requires kept { plain_counters scopes.now ≡ true }
    requires left { AllThere scopes.now (items_in (said left.now)) }
    requires right { AllThere scopes.now (items_in (said right.now)) }
    ensures { result ≡ for_some scopes.now (λ ρ. compares (class_of class) && is_none (operands_width scopes.now ρ (said left.now) (said right.now))) }
{
    match class {
        Classed::Words => false,
        Classed::TruthValues => false,
        Classed::Comparing => operands(scopes, left, right).is_none(),
        Classed::Ordering => operands(scopes, left, right).is_none(),
    }
}
