ghost use Rattle.std.specs.Prelude.{◌≡◌};
ghost use Rattle.std.specs.List.{list_any};
ghost use Rattle.occ_parse_forms.specs.Gives.{Gives};
ghost use Rattle.occ_parse_forms.specs.Reading.{are_distinct, assignment_of, form_of, group_of, guard_of, header_of, input_of, names_again, output_of, stands_among, start_of, statement_of, times_of, waiting_of};
ghost use Rattle.occ_parse_forms.specs.Shape.{all_said, said, shape, waiting};
ghost use Rattle.occ_parse_forms.specs.Symbols.{alone};

use crate::cursor::{alone, behind_sign, behind_word, cut, name_first, numeral_first};
use crate::declaration::{declaration, params};
use crate::expression::{expression, expressions};
use crate::fault::Fault;
use crate::item::{item, items};
use crate::{Form, Group, Item, Items, Param, Phrase, Phrases, Times, Wants};
use occ_lex::{Keyword, List, Name, Sign, Symbol};
use std::alloc::Global;

/// How a line goes on, by its first symbol.
#[derive(Clone, Copy, Debug, PartialEq, Eq)]
pub enum Start {
    Header,
    Close,
    Skip,
    Stop,
    Group(Group),
    Declaration,
    Other,
}

fn start_of(symbol: Symbol) -> Start
    ensures { result ≡ start_of symbol }
{
    match symbol {
        Symbol::Keyword(word) => match word {
            Keyword::Proc => Start::Header,
            Keyword::Skip => Start::Skip,
            Keyword::Stop => Start::Stop,
            Keyword::Seq => Start::Group(Group::Seq),
            Keyword::Par => Start::Group(Group::Par),
            Keyword::If => Start::Group(Group::If),
            Keyword::Alt => Start::Group(Group::Alt),
            Keyword::Chan => Start::Declaration,
            Keyword::Width(_) => Start::Declaration,
            _ => Start::Other,
        },
        Symbol::Sign(sign) => match sign {
            Sign::Colon => Start::Close,
            Sign::OpenIndex => Start::Declaration,
            _ => Start::Other,
        },
        _ => Start::Other,
    }
}

/// The name and the parameters of a header, by what stands behind PROC.
#[tactic(auto, unfolding(crate::specs::Reading::header_of))]
fn header(alloc: Global, symbols: &[Symbol]) -> Result<(Name, List<Param>), Fault>
    ensures { Gives (λ header. (header.0, header.1)) result (header_of symbols.now) }
{
    let Some((name, rest)) = name_first(symbols) else {
        return Err(Fault::Form);
    };
    let Some(rest) = behind_sign(rest, Sign::Open) else {
        return Err(Fault::Form);
    };
    let Some((inside, rest)) = cut(rest, Sign::Close) else {
        return Err(Fault::Form);
    };
    if !rest.is_empty() {
        return Err(Fault::Form);
    }
    Ok((name, params(alloc, inside)?))
}

/// Whether another item stands without an index and has that item's name.
fn names_again(item: Item, other: Item) -> bool
    ensures { result ≡ names_again item other }
{
    if other.index.is_some() {
        return false;
    }
    item.name.0 == other.name.0
}

fn is_named_among(item: Item, items: &[Item]) -> bool
    ensures { result ≡ list_any (names_again item) items.now }
{
    items.iter().any(|other| names_again(item, *other))
}

/// Whether an item without an index stands among others.
fn stands_among(item: Item, items: &[Item]) -> bool
    ensures { result ≡ stands_among item items.now }
{
    if item.index.is_some() {
        return false;
    }
    is_named_among(item, items)
}

fn are_distinct(items: &[Item]) -> bool
    ensures { result ≡ are_distinct items.now }
{
    for (i, item) in items.iter().enumerate() {
        if stands_among(*item, &items[i + 1..]) {
            return false;
        }
    }
    true
}

#[tactic(auto, unfolding(crate::specs::Reading::assignment_of))]
fn assignment(alloc: Global, left: &[Symbol], right: &[Symbol]) -> Result<(Items, Phrases), Fault>
    ensures { Gives (λ sides. (sides.0, all_said sides.1)) result (assignment_of left.now right.now) }
{
    let items = items(alloc, left)?;
    if !are_distinct(items.items()) {
        return Err(Fault::Form);
    }
    let values = expressions(alloc, right)?;
    if items.items().len() != values.items().len() {
        return Err(Fault::Form);
    }
    Ok((items, values))
}

#[tactic(auto, unfolding(crate::specs::Reading::input_of))]
fn input(left: &[Symbol], right: &[Symbol]) -> Option<(Item, Item)>
    ensures { result ≡ input_of left.now right.now }
{
    let chan = item(left)?;
    let var = item(right)?;
    Some((chan, var))
}

#[tactic(auto, unfolding(crate::specs::Reading::output_of))]
fn output(alloc: Global, left: &[Symbol], right: &[Symbol]) -> Result<(Item, Phrase), Fault>
    ensures { Gives (λ sides. (sides.0, said sides.1)) result (output_of left.now right.now) }
{
    let Some(chan) = item(left) else {
        return Err(Fault::Form);
    };
    Ok((chan, expression(alloc, right)?))
}

/// What a guard waits for, by what stands behind its `&`.
#[tactic(auto, unfolding(crate::specs::Reading::waiting_of))]
fn wants(alloc: Global, symbols: &[Symbol]) -> Result<Wants, Fault>
    ensures { Gives waiting result (waiting_of symbols.now) }
{
    if let Some(rest) = behind_word(symbols, Keyword::Skip) {
        if rest.is_empty() {
            return Ok(Wants::Skip);
        }
        return Err(Fault::Form);
    }
    if let Some((left, right)) = cut(symbols, Sign::Query) {
        let Some((chan, var)) = input(left, right) else {
            return Err(Fault::Form);
        };
        return Ok(Wants::Input { chan, var });
    }
    let Some((left, right)) = cut(symbols, Sign::Bang) else {
        return Err(Fault::Form);
    };
    let (chan, value) = output(alloc, left, right)?;
    Ok(Wants::Output { chan, value })
}

/// A line that begins with no word of its own.
#[tactic(auto, unfolding(crate::specs::Reading::statement_of, crate::specs::Reading::guard_of))]
fn statement(alloc: Global, symbols: &[Symbol]) -> Result<Form, Fault>
    ensures { Gives shape result (statement_of symbols.now) }
{
    if let Some((left, right)) = cut(symbols, Sign::Becomes) {
        let (left, right) = assignment(alloc, left, right)?;
        return Ok(Form::Assign { left, right });
    }
    if let Some((left, right)) = cut(symbols, Sign::Ampersand) {
        let condition = expression(alloc, left)?;
        let wants = wants(alloc, right)?;
        return Ok(Form::Guard { condition, wants });
    }
    if let Some((left, right)) = cut(symbols, Sign::Query) {
        let Some((chan, var)) = input(left, right) else {
            return Err(Fault::Form);
        };
        return Ok(Form::Input { chan, var });
    }
    if let Some((left, right)) = cut(symbols, Sign::Bang) {
        let (chan, value) = output(alloc, left, right)?;
        return Ok(Form::Output { chan, value });
    }
    Ok(Form::Condition(expression(alloc, symbols)?))
}

#[tactic(auto, unfolding(crate::specs::Reading::times_of))]
fn times(symbols: &[Symbol]) -> Option<Times>
    ensures { result ≡ times_of symbols.now }
{
    let (index, rest) = name_first(symbols)?;
    let rest = behind_sign(rest, Sign::Equal)?;
    let (base, rest) = numeral_first(rest)?;
    let rest = behind_word(rest, Keyword::For)?;
    let (count, rest) = numeral_first(rest)?;
    let times = Times { index, base, count };
    alone(times, rest)
}

fn grouped(group: Group, symbols: &[Symbol]) -> Result<Form, Fault>
    ensures { Gives shape result (group_of group symbols.now) }
{
    if symbols.is_empty() {
        let times = None;
        return Ok(Form::Group { group, times });
    }
    match times(symbols) {
        Some(times) => {
            let times = Some(times);
            Ok(Form::Group { group, times })
        }
        None => Err(Fault::Form),
    }
}

/// A form whose words are its first one alone.
fn word(form: Form, rest: &[Symbol]) -> Result<Form, Fault>
    ensures { Gives shape result (alone (shape form) rest.now) }
{
    if rest.is_empty() {
        Ok(form)
    } else {
        Err(Fault::Form)
    }
}

/// What a line says, where it has a form.
pub fn line(alloc: Global, symbols: &[Symbol]) -> Result<Form, Fault>
    ensures { Gives shape result (form_of symbols.now) }
{
    let [first, rest @ ..] = symbols else {
        return Err(Fault::Form);
    };
    match start_of(*first) {
        Start::Header => {
            let (name, params) = header(alloc, rest)?;
            Ok(Form::Header { name, params })
        }
        Start::Close => word(Form::Close, rest),
        Start::Skip => word(Form::Skip, rest),
        Start::Stop => word(Form::Stop, rest),
        Start::Group(group) => grouped(group, rest),
        Start::Declaration => Ok(Form::Declare(declaration(alloc, symbols)?)),
        Start::Other => statement(alloc, symbols),
    }
}
