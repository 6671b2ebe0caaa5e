ghost use Rattle.std.specs.Prelude.{◌≡◌, ◌++◌, ℕ, List, length, map, unwrap_or, OnOk, IfOk};
ghost use Rattle.std.specs.List.{AllByRecursion};
ghost use Rattle.occ_syntax.specs.View.{exp, exps, numbers, waiting as waiting_view};
ghost use Rattle.occ_parse_forms.specs.Shape.{all_said, said, waiting as waiting_said};
ghost use Rattle.occ_parse_forms.specs.occ_lex.Symbols.{Extends};
ghost use Rattle.occ_parse_rules.specs.Types.{asks, channel_here, class, or_width, own as own_of, sort_here, width_of_sort};
ghost use Rattle.occ_parse_rules.specs.Unrolled.{expression as expression_of, item_exp, item_number, value as value_of, values as all_values, waited};
ghost use Rattle.occ_parse_unroll.specs.Elements.{item_places, items_places, operand_places, places_in, values_places, waiting_places, brought};
ghost use Rattle.occ_parse_unroll.specs.Known.{IsKnownItem, IsKnownSaid, IsKnownWaiting};
ghost use Rattle.occ_parse_unroll.specs.Numbers.{numbering};
ghost use Rattle.occ_parse_unroll.specs.Present.{values_of};

use crate::context::Context;
use crate::naming::item_name;
use crate::numbering::Numbering;
use occ_parse_forms::{Item, Phrase, Wants};
use occ_parse_rules::Sort;
use occ_syntax::{Expr, Exprs, Memory, Name, NameList, Names, Op, Wait, Width};
use std::alloc::Global;

/// The width that an expression has of its own. It takes no memory.
pub fn own(context: &Context, phrase: &Phrase) -> Option<Width>
    ensures { result ≡ own_of context.now.scopes (values_of context.now.values) (said phrase.now) }
{
    match phrase {
        Phrase::Item(item) => width_of(context.sort(*item)),
        Phrase::Numeral(_) => None,
        Phrase::Typed(_, width) => Some(*width),
        Phrase::Truth(_) => Some(Width::Bool),
        Phrase::Not(_) => Some(Width::Bool),
        Phrase::Flip(operand) => own(context, operand),
        Phrase::Two(op, left, right) => match op {
            Op::Plus | Op::Minus | Op::BitAnd | Op::BitOr | Op::BitXor => {
                match own(context, left) {
                    Some(width) => Some(width),
                    None => own(context, right),
                }
            }
            Op::And | Op::Or => Some(Width::Bool),
            Op::Equal | Op::Differ => Some(Width::Bool),
            Op::Less | Op::Greater | Op::AtMost | Op::AtLeast => Some(Width::Bool),
        },
    }
}

fn width_of(sort: Option<Sort>) -> Option<Width>
    ensures { result ≡ width_of_sort sort }
{
    match sort {
        Some(Sort::Variable(width)) => Some(width),
        Some(Sort::Channel(width, _)) => Some(width),
        _ => None,
    }
}

/// The width that an operator asks its operands for, where it is asked for a width itself.
pub fn operand_width(
    context: &Context,
    op: Op,
    left: &Phrase,
    right: &Phrase,
    width: Width,
) -> Width
    ensures { let Γ = context.now.scopes in
        let ρ = values_of context.now.values in
        result ≡ unwrap_or (asks (class op) width (or_width (own_of Γ ρ (said left.now)) (own_of Γ ρ (said right.now)))) width }
{
    match op {
        Op::Plus | Op::Minus | Op::BitAnd | Op::BitOr | Op::BitXor => width,
        Op::And | Op::Or => Width::Bool,
        Op::Equal | Op::Differ => compared_width(context, left, right, width),
        Op::Less | Op::Greater => compared_width(context, left, right, width),
        Op::AtMost | Op::AtLeast => compared_width(context, left, right, width),
    }
}

fn compared_width(context: &Context, left: &Phrase, right: &Phrase, width: Width) -> Width
    ensures { let Γ = context.now.scopes in
        let ρ = values_of context.now.values in
        result ≡ unwrap_or (or_width (own_of Γ ρ (said left.now)) (own_of Γ ρ (said right.now))) width }
{
    match own(context, left) {
        Some(width) => width,
        None => match own(context, right) {
            Some(width) => width,
            None => width,
        },
    }
}

/// A name or an element as an expression that is asked for a width.
fn item_expression<S: Numbering>(
    source: &S,
    names: &mut Names,
    context: &Context,
    item: Item,
    width: Width,
) -> Result<Expr, Memory>
    requires { S.asks source.now → IsKnownItem (length names.old) item }
    ensures expression { IfOk result (λ e. (t : List (List ℕ)) → Extends names.new t
        → let Γ = context.now.scopes in let ρ = values_of context.now.values in
        exp e ≡ item_exp (sort_here Γ ρ item) (ρ item.name.0) (item_number (numbering (S.number source.now t)) ρ item) width) }
    ensures table { OnOk result (names.new ≡ brought (S.brings source.now) names.old (operand_places (sort_here context.now.scopes (values_of context.now.values) item) (item_places (values_of context.now.values) item))) }
    ensures extends { Extends names.old names.new }
{
    if let Some(Sort::Counter { .. }) = context.sort(item) {
        return Ok(Expr::Word {
            bits: width.bits(),
            value: context.values.operand(item.name),
        });
    }
    Ok(Expr::Var(item_name(source, names, context, item)?))
}

/// An expression that is asked for a width.
pub fn expression<S: Numbering>(
    source: &S,
    names: &mut Names,
    context: &Context,
    phrase: &Phrase,
    width: Width,
) -> Result<Expr, Memory>
    requires { S.asks source.now → IsKnownSaid (length names.old) (said phrase.now) }
    ensures expression { IfOk result (λ e. (t : List (List ℕ)) → Extends names.new t
        → exp e ≡ expression_of (numbering (S.number source.now t)) context.now.scopes (values_of context.now.values) (said phrase.now) width) }
    ensures table { OnOk result (names.new ≡ brought (S.brings source.now) names.old (places_in context.now.scopes (values_of context.now.values) (said phrase.now))) }
    ensures extends { Extends names.old names.new }
{
    let alloc = source.alloc();
    match phrase {
        Phrase::Item(item) => item_expression(source, names, context, *item, width),
        Phrase::Numeral(value) => Ok(Expr::Word {
            bits: width.bits(),
            value: *value,
        }),
        Phrase::Typed(value, width) => Ok(Expr::Word {
            bits: width.bits(),
            value: *value,
        }),
        Phrase::Truth(truth) => Ok(Expr::Bool(*truth)),
        Phrase::Not(operand) => {
            let operand = expression(source, names, context, operand, Width::Bool)?;
            Ok(Expr::Not(Box::new(alloc, operand)?))
        }
        Phrase::Flip(operand) => {
            let operand = expression(source, names, context, operand, width)?;
            Ok(Expr::Flip(Box::new(alloc, operand)?))
        }
        Phrase::Two(op, left, right) => {
            let width = operand_width(context, *op, left, right, width);
            let left = expression(source, names, context, left, width)?;
            let right = expression(source, names, context, right, width)?;
            Ok(Expr::Two(*op, Box::new(alloc, left)?, Box::new(alloc, right)?))
        }
    }
}

/// The values of an assignment, each for the variable in the same place. Where there are fewer of one side, the others
/// of the other side stand for nothing.
pub fn values<S: Numbering>(
    source: &S,
    names: &mut Names,
    context: &Context,
    left: &[Item],
    right: &[Phrase],
) -> Result<Exprs, Memory>
    requires { S.asks source.now → AllByRecursion (IsKnownSaid (length names.old)) (all_said right.now) }
    ensures values { IfOk result (λ es. (t : List (List ℕ)) → Extends names.new t
        → exps es ≡ all_values (numbering (S.number source.now t)) context.now.scopes (values_of context.now.values) left.now (all_said right.now)) }
    ensures table { OnOk result (names.new ≡ brought (S.brings source.now) names.old (values_places context.now.scopes (values_of context.now.values) left.now (all_said right.now))) }
    ensures extends { Extends names.old names.new }
{
    let alloc = source.alloc();
    let mut values = Exprs::new(alloc);
    for i in 0..left.len().min(right.len()) {
        let width = context.variable_width(left[i]);
        values.push(expression(source, names, context, &right[i], width)?)?;
    }
    Ok(values)
}

/// The names of the left items of an assignment.
pub fn left_names<S: Numbering>(
    source: &S,
    names: &mut Names,
    context: &Context,
    items: &[Item],
) -> Result<NameList, Memory>
    requires { S.asks source.now → AllByRecursion (IsKnownItem (length names.old)) items.now }
    ensures names { IfOk result (λ xs. (t : List (List ℕ)) → Extends names.new t
        → numbers xs ≡ map (item_number (numbering (S.number source.now t)) (values_of context.now.values)) items.now) }
    ensures table { OnOk result (names.new ≡ brought (S.brings source.now) names.old (items_places (values_of context.now.values) items.now)) }
    ensures extends { Extends names.old names.new }
{
    let alloc = source.alloc();
    let mut list = NameList::new(alloc);
    for item in items {
        list.push(item_name(source, names, context, *item)?)?;
    }
    Ok(list)
}

/// An output's value, which is asked for its channel's width.
pub fn output<S: Numbering>(
    source: &S,
    names: &mut Names,
    context: &Context,
    chan: Item,
    value: &Phrase,
) -> Result<(Name, Expr), Memory>
    requires chan { S.asks source.now → IsKnownItem (length names.old) chan }
    requires value { S.asks source.now → IsKnownSaid (length names.old) (said value.now) }
    ensures output { IfOk result (λ r. (t : List (List ℕ)) → Extends names.new t
        → let Γ = context.now.scopes in let ρ = values_of context.now.values in
        (r.0.0 ≡ item_number (numbering (S.number source.now t)) ρ chan)
        × (exp r.1 ≡ value_of (numbering (S.number source.now t)) Γ ρ (channel_here Γ ρ chan) (said value.now))) }
    ensures table { OnOk result (let ρ = values_of context.now.values in
        names.new ≡ brought (S.brings source.now) names.old (item_places ρ chan ++ places_in context.now.scopes ρ (said value.now))) }
    ensures extends { Extends names.old names.new }
{
    let name = item_name(source, names, context, chan)?;
    let value = expression(source, names, context, value, context.channel_width(chan))?;
    Ok((name, value))
}

/// An input's channel and variable.
pub fn input<S: Numbering>(
    source: &S,
    names: &mut Names,
    context: &Context,
    chan: Item,
    var: Item,
) -> Result<(Name, Name), Memory>
    requires chan { S.asks source.now → IsKnownItem (length names.old) chan }
    requires var { S.asks source.now → IsKnownItem (length names.old) var }
    ensures input { IfOk result (λ r. (t : List (List ℕ)) → Extends names.new t
        → let ρ = values_of context.now.values in
        (r.0.0 ≡ item_number (numbering (S.number source.now t)) ρ chan) × (r.1.0 ≡ item_number (numbering (S.number source.now t)) ρ var)) }
    ensures table { OnOk result (let ρ = values_of context.now.values in names.new ≡ brought (S.brings source.now) names.old (item_places ρ chan ++ item_places ρ var)) }
    ensures extends { Extends names.old names.new }
{
    let chan = item_name(source, names, context, chan)?;
    let var = item_name(source, names, context, var)?;
    Ok((chan, var))
}

/// What a guard waits for.
pub fn wait<S: Numbering>(
    source: &S,
    names: &mut Names,
    context: &Context,
    wants: &Wants,
) -> Result<Wait, Memory>
    requires { S.asks source.now → IsKnownWaiting (length names.old) (waiting_said wants.now) }
    ensures wait { IfOk result (λ w. (t : List (List ℕ)) → Extends names.new t
        → waiting_view w ≡ waited (numbering (S.number source.now t)) context.now.scopes (values_of context.now.values) (waiting_said wants.now)) }
    ensures table { OnOk result (names.new ≡ brought (S.brings source.now) names.old (waiting_places context.now.scopes (values_of context.now.values) (waiting_said wants.now))) }
    ensures extends { Extends names.old names.new }
{
    match wants {
        Wants::Skip => Ok(Wait::Skip),
        Wants::Input { chan, var } => {
            let (chan, var) = input(source, names, context, *chan, *var)?;
            Ok(Wait::Get { chan, var })
        }
        Wants::Output { chan, value } => {
            let (chan, value) = output(source, names, context, *chan, value)?;
            Ok(Wait::Put { chan, value })
        }
    }
}
