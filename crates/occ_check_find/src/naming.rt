//! Names that aren't in scope, are declared again, or reach outside their array.

use crate::layout::kind_word;
use crate::lexical::numeral;
use crate::look::{Below, Form, Look, alike, width_word};
use crate::scope::{Decl, Scopes, Sort};
use crate::typing;
use indexmap::IndexSet;
use occ_check_text::{Memory, Piece as P, Put, Span, TokKind, Told};

/// The tokens of a row between which names are used.
pub fn used_from(look: Look, row: usize) -> usize {
    match look.form(row) {
        Form::Header
        | Form::Declare
        | Form::Seq
        | Form::Par
        | Form::If
        | Form::Alt
        | Form::Close
        | Form::Blank => { look.src.count(row) }
        _ => 0,
    }
}

/// Whether a token names a channel by what stands around it.
pub fn is_channel_place(look: Look, row: usize, i: usize) -> bool {
    let end = crate::expr::item_end(look, row, i).unwrap_or(i.saturating_add(1));
    let marked = look.src.is(row, end, "?") || look.src.is(row, end, "!");
    marked && (i == 0 || look.src.is(row, i.saturating_sub(1), "&"))
}

/// Whether a token stands inside the brackets of an index.
pub fn is_index(look: Look, row: usize, i: usize) -> bool {
    i > 0 && look.src.is(row, i.saturating_sub(1), "[")
}

/// The first name of a row that isn't in scope, or is an array without an index, or has an index and is none.
pub fn undeclared_at(look: Look, scopes: &Scopes, row: usize) -> Option<usize> {
    let src = look.src;
    for i in used_from(look, row)..src.count(row) {
        if matches!(src.tok(row, i).kind, TokKind::Name) {
            let indexed = src.is(row, i.saturating_add(1), "[");
            match scopes.find(src, row, i) {
                Some(decl) if is_array(decl) == indexed => {}
                _ => return Some(i),
            }
        }
    }
    None
}

/// Whether a declaration is one of elements.
pub fn is_array(decl: Decl) -> bool {
    decl.count > 0 || decl.element.is_some()
}

/// What is told of a name that isn't in scope.
pub fn undeclared(look: Look, scopes: &Scopes, row: usize) -> Told {
    let Some(i) = undeclared_at(look, scopes, row) else {
        return unknown(
            look,
            row,
            "Undeclared",
            "a name on this line isn't in scope",
        );
    };
    let name = look.src.text_of(row, i);
    if let Some(decl) = scopes.find(look.src, row, i) {
        return half_array(look, row, i, decl);
    }
    let choice = matches!(look.place(row), Below::Choice | Below::Choices);
    if choice && look.src.count(row) == 1 && matches!(name, b"ELSE" | b"OTHERWISE") {
        let words = (
            "there is no % in this language",
            "expected a condition, found the name %, which isn't declared",
            "the last choice of an IF is TRUE",
        );
        return look.whole(
            look.tok(row, 0),
            "Undeclared",
            words,
            &[P::B(name), P::B(name)],
        );
    }
    let wants = wanted_sort(look, row, i);
    let list = in_scope(look, scopes, wants);
    let words = ("there is no % here", "expected % in scope (%), found %", "");
    let pieces = [P::B(name), P::T(wants.word()), P::W(&list), P::B(name)];
    let mut told = look.whole(look.tok(row, i), "Undeclared", words, &pieces);
    let ended = scopes
        .latest(name)
        .filter(|decl| decl.end > decl.row && decl.end <= row);
    match ended {
        Some(decl) => tell_ended(look, decl, row, &mut told),
        None => undeclared_hint(look, scopes, (row, i), wants, &mut told),
    }
    told
}

/// What a place asks of a name.
#[derive(Clone, Copy)]
enum Wants {
    Variable,
    Channel,
    Counter,
}

impl Wants {
    fn word(self) -> &'static str {
        match self {
            Wants::Variable => "a variable",
            Wants::Channel => "a channel",
            Wants::Counter => "a replicator's name",
        }
    }

    fn takes(self, sort: Sort) -> bool {
        match self {
            Wants::Variable => matches!(sort, Sort::Var(_)),
            Wants::Channel => matches!(sort, Sort::Chan(_, _)),
            Wants::Counter => matches!(sort, Sort::Counter { .. }),
        }
    }
}

fn wanted_sort(look: Look, row: usize, i: usize) -> Wants {
    if is_index(look, row, i) {
        Wants::Counter
    } else if is_channel_place(look, row, i) {
        Wants::Channel
    } else {
        Wants::Variable
    }
}

/// The names of a sort in scope, five at most.
fn in_scope(look: Look, scopes: &Scopes, wants: Wants) -> Put {
    let mut list = Put::new(look.alloc);
    let mut count: usize = 0;
    for place in scopes.in_scope() {
        let Some(decl) = scopes.decl(*place) else {
            continue;
        };
        if !wants.takes(decl.sort) {
            continue;
        }
        if count == 5 {
            list.add(b", ..");
            break;
        }
        if count > 0 {
            list.add(b", ");
        }
        list.say("%", &[P::B(look.src.text_of(decl.row, decl.tok))]);
        count = count.saturating_add(1);
    }
    if count == 0 {
        list.add(b"there is none");
    }
    list
}

/// An array without an index, or an index behind what is no array.
fn half_array(look: Look, row: usize, i: usize, decl: Decl) -> Told {
    let name = P::B(look.src.text_of(row, i));
    let words = if is_array(decl) {
        (
            "% is an array, and stands here without an index",
            "expected %[0] or another element, found %",
            "name one element, or replicate over all: SEQ i = 0 FOR %",
        )
    } else {
        (
            "% is no array, and stands here with an index",
            "expected % alone, found %[",
            "take the index away, or write [4] in front of the type of %",
        )
    };
    let last = if is_array(decl) {
        P::N(decl.count)
    } else {
        name
    };
    let mut told = look.whole(
        look.tok(row, i),
        "Undeclared",
        words,
        &[name, name, name, last],
    );
    told.mark(decl_span(look, decl), "% is declared here", &[name]);
    told
}

/// The first row that a declaration governs, and the last one.
fn rows_of(decl: Decl, look: Look) -> (usize, usize) {
    let next = decl.row.saturating_add(1);
    let first = (next..decl.end)
        .find(|row| !look.src.is_blank(*row) && !matches!(look.form(*row), Form::Declare))
        .unwrap_or(next);
    let last = (first..decl.end).rev().find(|row| !look.src.is_blank(*row));
    (first, last.unwrap_or(first))
}

/// The declaration of a name whose scope has ended, and what to write.
fn tell_ended(look: Look, decl: Decl, row: usize, told: &mut Told) {
    let name = look.src.text_of(decl.row, decl.tok);
    let (first, last) = rows_of(decl, look);
    let (one, two) = (first.saturating_add(1), last.saturating_add(1));
    let declares = matches!(look.form(decl.row), Form::Declare);
    let span = if declares {
        look.all(decl.row)
    } else {
        decl_span(look, decl)
    };
    if first == last {
        told.mark(
            span,
            "this % holds for line % alone",
            &[P::B(name), P::N(one)],
        );
    } else {
        told.mark(
            span,
            "this % holds for lines % to %",
            &[P::B(name), P::N(one), P::N(two)],
        );
    }
    if !declares {
        return told.hint("a replicator's name holds for the one part below it", &[]);
    }
    let joint = if row == first.saturating_add(1) {
        " and "
    } else {
        " to "
    };
    let (line, here) = (decl.row.saturating_add(1), row.saturating_add(1));
    told.hint(
        "a declaration governs the one process below it: put SEQ below line %, and lines %%% one level deeper",
        &[P::N(line), P::N(one), P::T(joint), P::N(here)],
    )
}

/// Whether two words of more than two letters differ by one letter: another one, one more or one less.
fn near(one: &[u8], two: &[u8]) -> bool {
    let (short, long) = if one.len() <= two.len() {
        (one, two)
    } else {
        (two, one)
    };
    if short.len() < 3 || long.len().saturating_sub(short.len()) > 1 {
        return false;
    }
    let front = short.iter().zip(long).take_while(|(a, b)| a == b).count();
    let back = short
        .iter()
        .rev()
        .zip(long.iter().rev())
        .take_while(|(a, b)| a == b)
        .count();
    if short.len() == long.len() {
        return front.saturating_add(back).saturating_add(1) >= short.len();
    }
    front.saturating_add(back) >= short.len()
}

fn undeclared_hint(look: Look, scopes: &Scopes, at: (usize, usize), wants: Wants, told: &mut Told) {
    let (row, i) = at;
    let src = look.src;
    let name = src.text_of(row, i);
    for place in scopes.in_scope() {
        let Some(decl) = scopes.decl(*place) else {
            continue;
        };
        let other = src.text_of(decl.row, decl.tok);
        if alike(name, other) {
            return told.hint("% is meant? capitals count", &[P::B(other)]);
        }
        if near(name, other) && wants.takes(decl.sort) {
            return told.hint("% is meant?", &[P::B(other)]);
        }
    }
    let channel = matches!(wants, Wants::Channel);
    let given = src.find(row, i, ":=").is_some()
        || (i > 0 && src.is(row, i.saturating_sub(1), "?"));
    if !given && !channel {
        return;
    }
    let Some(body) = body_row(look) else {
        return;
    };
    let front = P::T(if channel { "CHAN OF " } else { "" });
    let width = P::T(width_word(width_beside(look, scopes, row, i)));
    told.hint(
        "declare it in front of the process that uses it: %% %: above line %",
        &[front, width, P::B(name), P::N(body.saturating_add(1))],
    )
}

/// The width with which a name would be declared: that of another name on its line.
fn width_beside(look: Look, scopes: &Scopes, row: usize, i: usize) -> u8 {
    for k in 0..look.src.count(row) {
        if k != i && matches!(look.src.tok(row, k).kind, TokKind::Name) {
            match scopes.find(look.src, row, k).map(|decl| decl.sort) {
                Some(Sort::Var(bits)) | Some(Sort::Chan(bits, _)) => return bits,
                _ => {}
            }
        }
    }
    4
}

/// The first row of the body that is no declaration.
fn body_row(look: Look) -> Option<usize> {
    let header = look.first()?;
    (header.saturating_add(1)..look.src.rows()).find(|r| {
        !look.src.is_blank(*r) && look.src.level(*r) == 1 && !matches!(look.form(*r), Form::Declare)
    })
}

/// The place of a declaration: with its front where that stands directly before the name, else the name alone.
pub fn decl_span(look: Look, decl: Decl) -> Span {
    look.toks(decl.row, decl.from, decl.to)
}

/// An error of which no place is known but the row.
pub fn unknown(look: Look, row: usize, fault: &str, said: &str) -> Told {
    let kind = P::T(kind_word(look.form(row)));
    look.whole(look.all(row), fault, (said, "% stands here", ""), &[kind])
}

/// The declaration in scope that a row declares again, and the token at which it does.
pub fn redeclared_at(
    look: Look,
    scopes: &Scopes,
    row: usize,
) -> Result<Option<(usize, Decl)>, Memory> {
    match look.form(row) {
        Form::Seq | Form::Par | Form::If | Form::Alt if look.repeats(row) => {
            Ok(scopes.find(look.src, row, 1).map(|decl| (1, decl)))
        }
        Form::Declare | Form::Header => again_in_list(look, scopes, row),
        _ => Ok(None),
    }
}

fn again_in_list(look: Look, scopes: &Scopes, row: usize) -> Result<Option<(usize, Decl)>, Memory> {
    let src = look.src;
    let from = if matches!(look.form(row), Form::Header) {
        3
    } else {
        0
    };
    let mut seen: IndexSet<Vec<u8>> = IndexSet::new(look.alloc);
    let mut places: Vec<usize> = Vec::new(look.alloc);
    for i in from..src.count(row) {
        if !matches!(src.tok(row, i).kind, TokKind::Name) {
            continue;
        }
        let text = src.text_of(row, i);
        if let Some(decl) = scopes.find(src, row, i) {
            let element = src.is(row, i.saturating_add(1), "[");
            let other = element
                && decl.element != Some(numeral(src.text_of(row, i.saturating_add(2))))
                && decl.count == 0;
            if !other {
                return Ok(Some((i, decl)));
            }
        }
        if let Some(place) = seen.get_index_of(text) {
            let k = places.get(place).copied().unwrap_or(i);
            return Ok(Some((
                i,
                crate::scope::blank(row, k, k, k.saturating_add(1), Sort::Var(0)),
            )));
        }
        seen.insert_full(Vec::from_slice(look.alloc, text)?)?;
        places.push(i)?;
    }
    Ok(None)
}

/// What is told of a name that is declared again.
pub fn redeclared(look: Look, scopes: &Scopes, row: usize) -> Result<Told, Memory> {
    let Some((i, decl)) = redeclared_at(look, scopes, row)? else {
        let said = "a name on this line is declared again";
        return Ok(unknown(look, row, "Redeclared", said));
    };
    let name = P::B(look.src.text_of(row, i));
    let mut told = look.tell(
        look.tok(row, i),
        "Redeclared",
        "% is declared again inside its own scope",
        &[name],
    );
    told.mark(look.tok(decl.row, decl.tok), "% is declared here", &[name]);
    told.here("expected a new name, found %", &[name]);
    told.hint("take another name", &[]);
    Ok(told)
}

/// An element that its array doesn't have: the token of the array, the element that is reached, and the value of the index at
/// which it is.
#[derive(Clone, Copy)]
pub struct Outside {
    pub tok: usize,
    pub element: usize,
    pub below: bool,
    pub value: Option<usize>,
}

/// The first element of a row that is outside its array.
pub fn outside_at(look: Look, scopes: &Scopes, row: usize) -> Option<Outside> {
    let src = look.src;
    for tok in used_from(look, row)..src.count(row) {
        if src.is(row, tok.saturating_add(1), "[")
            && matches!(src.tok(row, tok).kind, TokKind::Name)
        {
            if let Some(decl) = scopes.find(src, row, tok) {
                let outside = item_outside(look, scopes, (row, tok), decl);
                if outside.is_some() {
                    return outside;
                }
            }
        }
    }
    None
}

fn item_outside(look: Look, scopes: &Scopes, at: (usize, usize), decl: Decl) -> Option<Outside> {
    let src = look.src;
    let (row, tok) = at;
    let index = tok.saturating_add(2);
    let has = |element: usize| element < decl.count || decl.element == Some(element);
    if matches!(src.tok(row, index).kind, TokKind::Numeral) {
        let element = numeral(src.text_of(row, index));
        let found = Outside {
            tok,
            element,
            below: false,
            value: None,
        };
        return if has(element) { None } else { Some(found) };
    }
    let Some(Sort::Counter { base, count }) = scopes.find(src, row, index).map(|found| found.sort)
    else {
        return None;
    };
    let more = numeral(src.text_of(row, index.saturating_add(2)));
    let sign = src.text_of(row, index.saturating_add(1));
    for step in 0..count.clamp(1, 300) {
        let value = base.saturating_add(step);
        let (element, below) = match sign {
            b"PLUS" => (value.saturating_add(more), false),
            b"MINUS" => (value.saturating_sub(more), more > value),
            _ => (value, false),
        };
        if below || !has(element) {
            return Some(Outside {
                tok,
                element,
                below,
                value: Some(value),
            });
        }
    }
    None
}

/// What is told of an element outside its array, or of one that stands twice on the left.
pub fn index(look: Look, scopes: &Scopes, row: usize) -> Told {
    let Some(outside) = outside_at(look, scopes, row) else {
        return unknown(look, row, "Index", "one element stands twice on the left");
    };
    let src = look.src;
    let first = outside.tok.saturating_add(2);
    let close = src.find(row, first, "]").unwrap_or(first.saturating_add(1));
    let name = src.text_of(row, outside.tok);
    let decl = scopes.find(src, row, outside.tok);
    let last = decl.map_or(0, |found| found.count.saturating_sub(1));
    let said = if outside.below {
        "an element below %[0]"
    } else {
        "%[%] is outside the array"
    };
    let mut told = look.tell(
        look.toks(row, first, close),
        "Index",
        said,
        &[P::B(name), P::N(outside.element)],
    );
    if let Some(found) = decl {
        told.mark(
            decl_span(look, found),
            "%[0] to %[%]",
            &[P::B(name), P::B(name), P::N(last)],
        );
    }
    let note = reached(look, row, outside, last);
    told.here("%", &[P::W(&note)]);
    match outside.value {
        Some(_) => outside_hint(look, scopes, row, outside, &mut told),
        None => told.hint("the last element is %[%]", &[P::B(name), P::N(last)]),
    }
    told
}

/// Which elements there are, and which one is reached.
fn reached(look: Look, row: usize, outside: Outside, last: usize) -> Put {
    let src = look.src;
    let first = outside.tok.saturating_add(2);
    let value = outside.value.unwrap_or(0);
    let mut note = Put::new(look.alloc);
    note.say("expected 0 to %, found ", &[P::N(last)]);
    if outside.below {
        let less = numeral(src.text_of(row, first.saturating_add(2)));
        note.say("-%", &[P::N(less.saturating_sub(value))]);
    } else {
        note.say("%", &[P::N(outside.element)]);
    }
    if outside.value.is_some() {
        note.say(
            " where % = %",
            &[P::B(src.text_of(row, first)), P::N(value)],
        );
    }
    note
}

fn outside_hint(look: Look, scopes: &Scopes, row: usize, outside: Outside, told: &mut Told) {
    let src = look.src;
    let first = outside.tok.saturating_add(2);
    let size = scopes
        .find(src, row, outside.tok)
        .map_or(0, |decl| decl.count);
    let Some(Sort::Counter { base, count }) = scopes.find(src, row, first).map(|decl| decl.sort)
    else {
        return;
    };
    let plus = src.is(row, first.saturating_add(1), "PLUS");
    let more = if plus {
        numeral(src.text_of(row, first.saturating_add(2)))
    } else {
        0
    };
    let room = size.saturating_sub(base.saturating_add(more));
    if !outside.below && room > 0 && room < count {
        told.hint("write FOR %", &[P::N(room)]);
        if plus && base.saturating_add(count) <= size {
            let (name, counter) = (src.text_of(row, outside.tok), src.text_of(row, first));
            told.hint(", or %[%]", &[P::B(name), P::B(counter)]);
        }
    }
}

/// What is told of the direction of a channel.
pub fn direction(look: Look, scopes: &Scopes, row: usize) -> Told {
    let Some((chan, mark, decl)) = typing::against_at(look, scopes, row) else {
        return unknown(look, row, "Direction", "a channel is used against its mark");
    };
    let src = look.src;
    let name = P::B(src.text_of(row, chan));
    let gives = matches!(decl.sort, Sort::Chan(_, b'!'));
    let (said, does, own, other) = if gives {
        (
            "% gives, and is used to input",
            "outputs",
            P::T("!"),
            P::T("?"),
        )
    } else {
        (
            "% takes, and is used to output",
            "inputs",
            P::T("?"),
            P::T("!"),
        )
    };
    let words = (said, "expected % behind %, found %", "");
    let mut told = look.whole(
        look.tok(row, mark),
        "Direction",
        words,
        &[name, own, name, other],
    );
    told.mark(
        look.toks(decl.row, decl.tok, decl.to),
        "the mark says that the program % on %",
        &[P::T(does), name],
    );
    let rest = P::B(src.between(row, mark.saturating_add(1), src.count(row)));
    match other_channel(look, scopes, decl) {
        Some(meant) => told.hint("% % % is meant?", &[P::B(meant), other, rest]),
        None => {
            let words = "write % % % here, or %% in the header";
            told.hint(words, &[name, own, rest, name, other])
        }
    }
    told
}

/// The one other channel parameter of that type with the other mark.
fn other_channel<'a>(look: Look<'a>, scopes: &Scopes, decl: Decl) -> Option<&'a [u8]> {
    let Sort::Chan(bits, own) = decl.sort else {
        return None;
    };
    let mut found = None;
    for place in scopes.in_scope() {
        let Some(other) = scopes.decl(*place) else {
            continue;
        };
        if let Sort::Chan(width, mark) = other.sort {
            if width == bits && mark != own && mark != 0 && other.count == 0 {
                if found.is_some() {
                    return None;
                }
                found = Some(look.src.text_of(other.row, other.tok));
            }
        }
    }
    found
}
