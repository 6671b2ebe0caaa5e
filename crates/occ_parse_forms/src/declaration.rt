ghost use Rattle.std.specs.Prelude.{◌≡◌};
ghost use Rattle.occ_parse_forms.specs.Gives.{Finds, Gives};
ghost use Rattle.occ_parse_forms.specs.Reading.{channel_of, counted, declaration_of, declared_first, declared_kind, declared_of, element_behind, front_behind, front_first, kind_of, param_of, param_with, params_of};
ghost use Rattle.occ_parse_forms.specs.Symbols.{each, groups_of};

use crate::cursor::{
    alone, behind_sign, behind_word, cut, groups, name_first, numeral_first, width_first,
};
use crate::fault::Fault;
use crate::{Count, Declaration, Declared, Param};
use occ_lex::{Dir, Keyword, List, Name, Sign, Symbol, Width};
use occ_syntax::Kind;
use std::alloc::Global;

/// What stands in front of declared names: a count, CHAN OF, and a width.
#[derive(Clone, Copy, Debug, PartialEq, Eq)]
pub struct Front {
    pub count: Option<Count>,
    pub is_channel: bool,
    pub width: Width,
}

fn front_behind(count: Option<Count>, symbols: &[Symbol]) -> Option<(Front, &[Symbol])>
    ensures { Finds (λ found. (found.0, found.1.now)) result (front_behind count symbols.now) }
{
    if let Some(rest) = behind_word(symbols, Keyword::Chan) {
        let rest = behind_word(rest, Keyword::Of)?;
        let (width, rest) = width_first(rest)?;
        let front = Front {
            count,
            is_channel: true,
            width,
        };
        return Some((front, rest));
    }
    let (width, rest) = width_first(symbols)?;
    let front = Front {
        count,
        is_channel: false,
        width,
    };
    Some((front, rest))
}

#[tactic(auto, unfolding(crate::specs::Reading::front_first))]
fn front_first(symbols: &[Symbol]) -> Option<(Front, &[Symbol])>
    ensures { Finds (λ found. (found.0, found.1.now)) result (front_first symbols.now) }
{
    let Some(rest) = behind_sign(symbols, Sign::OpenIndex) else {
        return front_behind(None, symbols);
    };
    let (count, rest) = numeral_first(rest)?;
    let rest = behind_sign(rest, Sign::CloseIndex)?;
    if count == 0 {
        return None;
    }
    front_behind(Some(count), rest)
}

fn counted(count: Option<Count>, name: Name) -> Declared
    ensures { result ≡ counted count name }
{
    match count {
        Some(count) => Declared::Array(name, count),
        None => Declared::Plain(name),
    }
}

fn element_behind(
    count: Option<Count>,
    name: Name,
    symbols: &[Symbol],
) -> Option<(Declared, &[Symbol])>
    ensures { Finds (λ found. (found.0, found.1.now)) result (element_behind count name symbols.now) }
{
    match count {
        Some(_) => None,
        None => {
            let (place, rest) = numeral_first(symbols)?;
            let rest = behind_sign(rest, Sign::CloseIndex)?;
            Some((Declared::Element(name, place), rest))
        }
    }
}

#[tactic(auto, unfolding(crate::specs::Reading::declared_first))]
fn declared_first(count: Option<Count>, symbols: &[Symbol]) -> Option<(Declared, &[Symbol])>
    ensures { Finds (λ found. (found.0, found.1.now)) result (declared_first count symbols.now) }
{
    let (name, rest) = name_first(symbols)?;
    match behind_sign(rest, Sign::OpenIndex) {
        Some(rest) => element_behind(count, name, rest),
        None => Some((counted(count, name), rest)),
    }
}

#[tactic(auto, unfolding(crate::specs::Reading::declared_of))]
fn declared(count: Option<Count>, symbols: &[Symbol]) -> Option<Declared>
    ensures { result ≡ declared_of count symbols.now }
{
    let (declared, rest) = declared_first(count, symbols)?;
    alone(declared, rest)
}

fn channel(width: Width, symbols: &[Symbol]) -> Option<Kind>
    ensures { result ≡ channel_of width symbols.now }
{
    if let Some(rest) = behind_sign(symbols, Sign::Query) {
        return alone(Kind::Chan(width, Some(Dir::Input)), rest);
    }
    let rest = behind_sign(symbols, Sign::Bang)?;
    alone(Kind::Chan(width, Some(Dir::Output)), rest)
}

/// The kind of a parameter, by what stands behind it: a channel has its mark.
#[tactic(auto, unfolding(crate::specs::Reading::kind_of))]
fn kind(front: Front, symbols: &[Symbol]) -> Option<Kind>
    ensures { result ≡ kind_of front symbols.now }
{
    if front.is_channel {
        channel(front.width, symbols)
    } else {
        alone(Kind::Var(front.width), symbols)
    }
}

#[tactic(auto, unfolding(crate::specs::Reading::param_with))]
fn param_with(front: Front, symbols: &[Symbol]) -> Option<Param>
    ensures { result ≡ param_with front symbols.now }
{
    let (declared, rest) = declared_first(front.count, symbols)?;
    let kind = kind(front, rest)?;
    Some(Param { declared, kind })
}

/// A parameter with its front, which may be that of the one before.
#[tactic(auto, unfolding(crate::specs::Reading::param_of))]
fn param(before: Option<Front>, symbols: &[Symbol]) -> Option<(Front, Param)>
    ensures { result ≡ param_of before symbols.now }
{
    if let Some((front, rest)) = front_first(symbols) {
        return Some((front, param_with(front, rest)?));
    }
    let front = before?;
    Some((front, param_with(front, symbols)?))
}

/// The parameters between the brackets of a header.
pub fn params(alloc: Global, symbols: &[Symbol]) -> Result<List<Param>, Fault>
    ensures { Gives (λ params. params) result (params_of symbols.now) }
{
    let mut params = List::new(alloc);
    if symbols.is_empty() {
        return Ok(params);
    }
    let mut before = None;
    for group in &groups(alloc, symbols)? {
        let Some((front, param)) = param(before, group) else {
            return Err(Fault::Form);
        };
        params.push(param)?;
        before = Some(front);
    }
    Ok(params)
}

fn declared_names(
    alloc: Global,
    count: Option<Count>,
    symbols: &[Symbol],
) -> Result<List<Declared>, Fault>
    ensures { Gives (λ names. names) result (each (declared_of count) (groups_of symbols.now)) }
{
    let mut names = List::new(alloc);
    for group in &groups(alloc, symbols)? {
        match declared(count, group) {
            Some(declared) => names.push(declared)?,
            None => return Err(Fault::Form),
        }
    }
    Ok(names)
}

fn declared_kind(front: Front) -> Kind
    ensures { result ≡ declared_kind front }
{
    if front.is_channel {
        Kind::Chan(front.width, None)
    } else {
        Kind::Var(front.width)
    }
}

/// The declaration that the symbols are.
#[tactic(auto, unfolding(crate::specs::Reading::declaration_of))]
pub fn declaration(alloc: Global, symbols: &[Symbol]) -> Result<Declaration, Fault>
    ensures { Gives (λ found. (found.kind, found.declared)) result (declaration_of symbols.now) }
{
    let Some((front, rest)) = front_first(symbols) else {
        return Err(Fault::Form);
    };
    let Some((names, rest)) = cut(rest, Sign::Colon) else {
        return Err(Fault::Form);
    };
    if !rest.is_empty() {
        return Err(Fault::Form);
    }
    Ok(Declaration {
        kind: declared_kind(front),
        declared: declared_names(alloc, front.count, names)?,
    })
}
