//! Types that differ where they must be one.

use crate::expr::{self, Expr, Node, What, item_end};
use crate::lexical::numeral;
use crate::look::{Form, Look, width_word};
use crate::naming::{is_index, used_from};
use crate::scope::{Decl, Scopes, Sort, size_of};
use occ_check_text::{Memory, Piece as P, Told};

/// What an expression gives, as far as it is known. A numeral is known by its value, an index by its greatest one.
#[derive(Clone, Copy)]
pub enum Ty {
    Bits(u8),
    Free(usize),
    Chan,
    Unknown,
}

/// What a place asks for, and what asks for it.
#[derive(Clone, Copy)]
pub struct Asked {
    pub bits: Option<u8>,
    pub by: By,
}

/// What asks for a type: an item that is assigned, a channel, a condition, or another operand of the expression.
#[derive(Clone, Copy)]
pub enum By {
    Item(usize),
    Channel(usize),
    Condition,
    Operand(usize),
}

/// A place at which two types differ: its tokens, what it gives, what is asked for, and whether it is the whole right side.
#[derive(Clone, Copy)]
pub struct Clash {
    pub from: usize,
    pub to: usize,
    pub found: Ty,
    pub asked: u8,
    pub by: By,
    pub whole: bool,
}

/// What an item gives.
pub fn ty_of(look: Look, scopes: &Scopes, row: usize, i: usize) -> Ty {
    match scopes.find(look.src, row, i).map(|decl| decl.sort) {
        Some(Sort::Var(bits)) => Ty::Bits(bits),
        Some(Sort::Chan(_, _)) => Ty::Chan,
        Some(Sort::Counter { base, count }) => Ty::Free(
            base.saturating_add(count).saturating_sub(1).max(base),
        ),
        None => Ty::Unknown,
    }
}

/// The types of all nodes.
fn types(look: Look, scopes: &Scopes, row: usize, nodes: &[Node]) -> Result<Vec<Ty>, Memory> {
    let mut found: Vec<Ty> = Vec::new(look.alloc);
    for node in nodes {
        let left = found.get(node.left).copied().unwrap_or(Ty::Unknown);
        let right = found.get(node.right).copied().unwrap_or(Ty::Unknown);
        let ty = match node.what {
            What::Item => ty_of(look, scopes, row, node.op),
            What::Numeral => Ty::Free(numeral(look.src.text_of(row, node.op))),
            What::Typed => typed(look, row, node.op),
            What::Truth | What::Not | What::Compare | What::Logic => Ty::Bits(0),
            What::Flip => left,
            What::Word => match (left, right) {
                (Ty::Bits(_), _) => left,
                (_, Ty::Bits(_)) => right,
                (Ty::Free(one), Ty::Free(two)) => Ty::Free(one.max(two)),
                _ => Ty::Unknown,
            },
        };
        found.push(ty)?;
    }
    Ok(found)
}

fn typed(look: Look, row: usize, op: usize) -> Ty {
    match crate::look::width_of(look.src.text_of(row, op.saturating_add(2))) {
        Some(bits) => Ty::Bits(bits),
        None => Ty::Unknown,
    }
}

/// What the operands of a comparison are asked for: the type of the left one, or else of the right one.
fn compared(left: Ty, right: Ty, node: &Node) -> (Option<u8>, By) {
    match (left, right) {
        (Ty::Bits(bits), _) => (Some(bits), By::Operand(node.left)),
        (_, Ty::Bits(bits)) => (Some(bits), By::Operand(node.right)),
        _ => (None, By::Operand(node.left)),
    }
}

/// What the operands of an operator that gives a word are asked for: what it is asked for, or else its own type.
fn below_word(own: Asked, ty: Ty, left: usize) -> Asked {
    match (own.bits, ty) {
        (Some(1..), _) => own,
        (_, Ty::Bits(inner)) => Asked {
            bits: Some(inner),
            by: By::Operand(left),
        },
        _ => Asked {
            bits: None,
            by: own.by,
        },
    }
}

/// What each node is asked for.
fn asks(look: Look, nodes: &[Node], tys: &[Ty], outer: Asked) -> Result<Vec<Asked>, Memory> {
    let mut asked = Vec::new(look.alloc);
    for _ in nodes {
        asked.push(outer)?;
    }
    let ty = |place: usize| tys.get(place).copied().unwrap_or(Ty::Unknown);
    for i in (0..nodes.len()).rev() {
        let (Some(node), Some(own)) = (nodes.get(i), asked.get(i).copied()) else {
            continue;
        };
        let down = match node.what {
            What::Not | What::Logic => Asked {
                bits: Some(0),
                by: By::Condition,
            },
            What::Compare => {
                let (bits, by) = compared(ty(node.left), ty(node.right), node);
                Asked { bits, by }
            }
            What::Word | What::Flip => below_word(own, ty(i), node.left),
            _ => continue,
        };
        for side in [node.left, node.right] {
            if side < i {
                if let Some(place) = asked.get_mut(side) {
                    *place = down;
                }
            }
        }
    }
    Ok(asked)
}

/// Whether a node's own type isn't the one asked for.
fn differs(node: &Node, ty: Ty, asked: Option<u8>) -> bool {
    match (node.what, ty, asked) {
        (What::Item, Ty::Chan, _) => true,
        (What::Word | What::Flip, _, Some(0)) => true,
        (What::Word | What::Flip, Ty::Bits(0), _) => true,
        (What::Word | What::Flip, _, _) => false,
        (_, Ty::Bits(found), Some(wanted)) => found != wanted,
        (_, Ty::Free(_), Some(0)) => true,
        (_, Ty::Free(value), Some(wanted)) => value >= size_of(wanted),
        _ => false,
    }
}

/// The first place of an expression at which types differ.
fn expression_clash(
    look: Look,
    scopes: &Scopes,
    row: usize,
    span: (usize, usize),
    outer: Asked,
) -> Result<Option<Clash>, Memory> {
    let Expr { nodes, bad, lost } = expr::read(look, row, span.0, span.1);
    if lost {
        return Err(Memory);
    }
    if bad.is_some() {
        return Ok(None);
    }
    let tys = types(look, scopes, row, &nodes)?;
    let asked = asks(look, &nodes, &tys, outer)?;
    let mut found: Option<Clash> = None;
    for (i, node) in nodes.iter().enumerate() {
        let (Some(ty), Some(ask)) = (tys.get(i).copied(), asked.get(i).copied()) else {
            continue;
        };
        if !differs(node, ty, ask.bits) {
            continue;
        }
        let earlier = found.is_some_and(|clash| clash.from <= node.from);
        if !earlier {
            let whole = i.saturating_add(1) == nodes.len();
            let asked = ask.bits.unwrap_or(0);
            found = Some(Clash {
                from: node.from,
                to: node.to,
                found: ty,
                asked,
                by: ask.by,
                whole,
            });
        }
    }
    Ok(found)
}

/// The first item of a row whose index isn't known when the program is read.
fn index_at(look: Look, scopes: &Scopes, row: usize) -> Option<usize> {
    for i in used_from(look, row)..look.src.count(row) {
        if is_index(look, row, i) && matches!(ty_of(look, scopes, row, i), Ty::Bits(_) | Ty::Chan) {
            return Some(i);
        }
    }
    None
}

/// What is asked by an item that takes a value.
fn asked_by(look: Look, scopes: &Scopes, row: usize, i: usize) -> Asked {
    let bits = match ty_of(look, scopes, row, i) {
        Ty::Bits(bits) => Some(bits),
        _ => None,
    };
    Asked {
        bits,
        by: By::Item(i),
    }
}

/// The bits that a channel carries.
fn carried(look: Look, scopes: &Scopes, row: usize, i: usize) -> Option<u8> {
    match scopes.find(look.src, row, i).map(|decl| decl.sort) {
        Some(Sort::Chan(bits, _)) => Some(bits),
        _ => None,
    }
}

/// The tokens of the groups between commas: the first one, and the one behind the last.
fn groups(look: Look, row: usize, from: usize, to: usize) -> Result<Vec<(usize, usize)>, Memory> {
    let mut found = Vec::new(look.alloc);
    let mut start = from;
    for i in from..to {
        if look.src.is(row, i, ",") {
            found.push((start, i))?;
            start = i.saturating_add(1);
        }
    }
    found.push((start, to))?;
    Ok(found)
}

fn assignment_clash(look: Look, scopes: &Scopes, row: usize) -> Result<Option<Clash>, Memory> {
    let Some(becomes) = look.src.find(row, 0, ":=") else {
        return Ok(None);
    };
    let left = groups(look, row, 0, becomes)?;
    let right = groups(look, row, becomes.saturating_add(1), look.src.count(row))?;
    for (k, (target, end)) in left.iter().enumerate() {
        let found = ty_of(look, scopes, row, *target);
        if !matches!(found, Ty::Bits(_) | Ty::Unknown) {
            return Ok(Some(Clash {
                from: *target,
                to: *end,
                found,
                asked: 0,
                by: By::Item(*target),
                whole: false,
            }));
        }
        let Some(value) = right.get(k).copied() else {
            break;
        };
        let outer = asked_by(look, scopes, row, *target);
        if let Some(clash) = expression_clash(look, scopes, row, value, outer)? {
            return Ok(Some(clash));
        }
    }
    Ok(None)
}

fn message_clash(
    look: Look,
    scopes: &Scopes,
    row: usize,
    from: usize,
) -> Result<Option<Clash>, Memory> {
    let src = look.src;
    let end = src.count(row);
    let input = src.find(row, from, "?");
    let Some(mark) = input.or_else(|| src.find(row, from, "!")) else {
        return Ok(None);
    };
    let chan = ty_of(look, scopes, row, from);
    if matches!(chan, Ty::Bits(_) | Ty::Free(_)) {
        return Ok(Some(Clash {
            from,
            to: mark,
            found: chan,
            asked: 0,
            by: By::Channel(from),
            whole: false,
        }));
    }
    let outer = Asked {
        bits: carried(look, scopes, row, from),
        by: By::Channel(from),
    };
    let next = mark.saturating_add(1);
    if input.is_none() {
        return expression_clash(look, scopes, row, (next, end), outer);
    }
    let target = ty_of(look, scopes, row, next);
    let wrong = match (target, outer.bits) {
        (Ty::Bits(bits), Some(wanted)) => bits != wanted,
        (Ty::Chan | Ty::Free(_), _) => true,
        _ => false,
    };
    if !wrong {
        return Ok(None);
    }
    Ok(Some(Clash {
        from: next,
        to: end,
        found: target,
        asked: outer.bits.unwrap_or(0),
        by: By::Channel(from),
        whole: true,
    }))
}

/// The first place of a row at which types differ.
pub fn clash_at(look: Look, scopes: &Scopes, row: usize) -> Result<Option<Clash>, Memory> {
    let end = look.src.count(row);
    let condition = Asked {
        bits: Some(0),
        by: By::Condition,
    };
    match look.form(row) {
        Form::Assign => assignment_clash(look, scopes, row),
        Form::Input | Form::Output => message_clash(look, scopes, row, 0),
        Form::Condition => expression_clash(look, scopes, row, (0, end), condition),
        Form::Guard => {
            let and = look.src.find(row, 0, "&").unwrap_or(end);
            if let Some(clash) = expression_clash(look, scopes, row, (0, and), condition)? {
                return Ok(Some(clash));
            }
            message_clash(look, scopes, row, and.saturating_add(1))
        }
        _ => Ok(None),
    }
}

/// A channel parameter that a row uses against its mark: the tokens of the channel and of the mark.
pub fn against_at(look: Look, scopes: &Scopes, row: usize) -> Option<(usize, usize, Decl)> {
    let src = look.src;
    let from = match look.form(row) {
        Form::Input | Form::Output => 0,
        Form::Guard => src.find(row, 0, "&")?.saturating_add(1),
        _ => return None,
    };
    let mark = item_end(look, row, from).ok()?;
    let decl = scopes.find(src, row, from)?;
    match decl.sort {
        Sort::Chan(_, b'?') if src.is(row, mark, "!") => Some((from, mark, decl)),
        Sort::Chan(_, b'!') if src.is(row, mark, "?") => Some((from, mark, decl)),
        _ => None,
    }
}

/// What is told of the types of a row.
pub fn type_clash(look: Look, scopes: &Scopes, row: usize) -> Result<Option<Told>, Memory> {
    if let Some(i) = index_at(look, scopes, row) {
        return Ok(Some(unknown_index(look, scopes, row, i)));
    }
    match clash_at(look, scopes, row)? {
        Some(clash) => Ok(Some(crate::clash::told(look, scopes, row, clash))),
        None => Ok(None),
    }
}

/// An index that isn't known when the program is read.
fn unknown_index(look: Look, scopes: &Scopes, row: usize, i: usize) -> Told {
    let src = look.src;
    let said = "this index isn't known when the program is read";
    let name = P::B(src.text_of(row, i));
    let place = look.tok(row, i);
    let Ty::Bits(bits) = ty_of(look, scopes, row, i) else {
        let here = "expected a numeral or a replicator's name, found the channel %";
        return look.whole(place, "TypeClash", (said, here, ""), &[name]);
    };
    let count = scopes
        .find(src, row, i.saturating_sub(2))
        .map_or(0, |decl| decl.count);
    let places = i == 2 && src.is(row, 4, ":=") && bits > 0;
    let (front, hint) = if places {
        (
            P::N(count),
            "replicate over the places: IF k = 0 FOR %, with the choice % = k and %[k] := % below it (%: %)",
        )
    } else {
        (
            name,
            "replicate over the places, with a choice % = k for each place k",
        )
    };
    let here = "expected a numeral or a replicator's name, found the variable %";
    let pieces = [
        name,
        front,
        name,
        P::B(src.text_of(row, 0)),
        P::B(src.between(row, 5, src.count(row))),
        name,
        P::T(width_word(bits)),
    ];
    look.whole(place, "TypeClash", (said, here, hint), &pieces)
}
