//! What is told of what the parts of a PAR share.

use crate::expr::item_end;
use crate::lexical::numeral;
use crate::look::{Form, Look, width_word};
use crate::naming::{is_channel_place, is_index, used_from};
use crate::report::first_word;
use crate::scope::{Scopes, Sort};
use occ_check_text::{Memory, Piece as P, Span, TokKind, Told};

/// How a part uses a name.
#[derive(Clone, Copy, Debug, PartialEq, Eq)]
pub enum Does {
    Assigns,
    Inputs,
    Reads,
    InputsOn,
    OutputsOn,
}

impl Does {
    pub fn word(self) -> &'static str {
        match self {
            Does::Assigns => " assigns ",
            Does::Inputs => " inputs ",
            Does::Reads => " reads ",
            Does::InputsOn => " inputs on ",
            Does::OutputsOn => " outputs on ",
        }
    }

    pub fn changes(self) -> bool {
        matches!(self, Does::Assigns | Does::Inputs)
    }
}

/// A use of a name: its row, its first token, the token behind it, and what is done.
#[derive(Clone, Copy, Debug)]
pub struct Use {
    pub row: usize,
    pub tok: usize,
    pub end: usize,
    pub does: Does,
}

/// A part of a PAR: its first row and its last one.
#[derive(Clone, Copy)]
pub struct Part {
    pub first: usize,
    pub last: usize,
}

/// The parts of a PAR, or of any construct.
pub fn parts(look: Look, par: usize) -> Result<Vec<Part>, Memory> {
    let mut found: Vec<Part> = Vec::new(look.alloc);
    let level = look.src.level(par).saturating_add(1);
    let last = look.last_below(par);
    let mut open = false;
    for row in par.saturating_add(1)..last.saturating_add(1) {
        if look.src.is_blank(row) {
            continue;
        }
        let begins = look.src.level(row) == level;
        if begins && !open {
            found.push(Part {
                first: row,
                last: row,
            })?;
        }
        if begins {
            open = matches!(look.form(row), Form::Declare);
        }
        if let Some(part) = found.last_mut() {
            part.last = row;
        }
    }
    Ok(found)
}

/// Where the sides of a row are parted: the tokens of its `:=` and `?`, and the first at which names are used.
#[derive(Clone, Copy)]
pub struct Sides {
    row: usize,
    becomes: Option<usize>,
    query: Option<usize>,
    from: usize,
}

impl Sides {
    /// The sides of a row.
    pub fn of(look: Look, row: usize) -> Sides {
        let src = look.src;
        Sides {
            row,
            becomes: src.find(row, 0, ":="),
            query: src.find(row, 0, "?"),
            from: used_from(look, row),
        }
    }

    /// The use that a name at a token is.
    pub fn use_at(self, look: Look, tok: usize) -> Option<Use> {
        let (src, row) = (look.src, self.row);
        if tok < self.from || !matches!(src.tok(row, tok).kind, TokKind::Name) {
            return None;
        }
        let end = item_end(look, row, tok).unwrap_or(tok.saturating_add(1));
        let does = if is_channel_place(look, row, tok) {
            if src.is(row, end, "?") {
                Does::InputsOn
            } else {
                Does::OutputsOn
            }
        } else if self.becomes.is_some_and(|at| tok < at) && !is_index(look, row, tok) {
            Does::Assigns
        } else if self.query.is_some_and(|at| tok == at.saturating_add(1)) {
            Does::Inputs
        } else {
            Does::Reads
        };
        Some(Use {
            row,
            tok,
            end,
            does,
        })
    }
}

/// A name, or an element of an array.
#[derive(Clone, Copy)]
struct Wanted<'a> {
    name: &'a [u8],
    element: Option<usize>,
}

/// What a name with or without an index in brackets names.
fn wanted_of(name: &[u8]) -> Wanted<'_> {
    let len = name.iter().take_while(|byte| **byte != b'[').count();
    let (front, rest) = name.split_at(len.min(name.len()));
    let element = if rest.is_empty() {
        None
    } else {
        Some(numeral(rest))
    };
    Wanted {
        name: front,
        element,
    }
}

/// Whether an item may be the one that is looked for; where its index isn't a numeral it may.
fn may_be(look: Look, row: usize, tok: usize, wanted: Wanted) -> bool {
    let src = look.src;
    let index = tok.saturating_add(2);
    let known = src.is(row, tok.saturating_add(1), "[")
        && matches!(src.tok(row, index).kind, TokKind::Numeral);
    let element = numeral(src.text_of(row, index));
    src.text_of(row, tok) == wanted.name
        && (!known || wanted.element.is_none() || wanted.element == Some(element))
}

/// Which uses are looked for: those that change, all, or one kind.
#[derive(Clone, Copy)]
enum Test {
    Changes,
    Any,
    Is(Does),
}

/// The first use of a name in a part for which a test holds.
fn first_use(look: Look, part: Part, name: Wanted, test: Test) -> Option<Use> {
    for row in part.first..part.last.saturating_add(1) {
        let sides = Sides::of(look, row);
        for tok in 0..look.src.count(row) {
            if !may_be(look, row, tok, name) {
                continue;
            }
            if let Some(found) = sides.use_at(look, tok) {
                let fits = match test {
                    Test::Changes => found.does.changes(),
                    Test::Any => true,
                    Test::Is(wanted) => found.does == wanted,
                };
                if fits {
                    return Some(found);
                }
            }
        }
    }
    None
}

/// The first two parts that share a variable, each with a use.
fn sharers(look: Look, parts: &[Part], name: Wanted) -> Option<((usize, Use), (usize, Use))> {
    for (i, part) in parts.iter().enumerate() {
        let Some(change) = first_use(look, *part, name, Test::Changes) else {
            continue;
        };
        for (k, other) in parts.iter().enumerate() {
            if k == i {
                continue;
            }
            let also = first_use(look, *other, name, Test::Changes);
            let Some(found) = also.or_else(|| first_use(look, *other, name, Test::Any)) else {
                continue;
            };
            return Some(if i < k {
                ((i, change), (k, found))
            } else {
                ((k, found), (i, change))
            });
        }
    }
    None
}

/// Marks a use, with words that name what is done and the name.
fn mark_use(look: Look, told: &mut Told, found: Use, words: &str, pieces: &[P]) {
    told.mark(look.toks(found.row, found.tok, found.end), words, pieces)
}

/// What is told of a variable that parts of a PAR share.
pub fn shared_variable(look: Look, row: usize, fault: &[u8]) -> Result<Told, Memory> {
    let mut told = Told::new(look.alloc, look.all(row), fault);
    let name = P::B(first_word(fault).1);
    let found = wanted_of(first_word(fault).1);
    told.here("this PAR", &[]);
    if look.repeats(row) {
        told.say("two copies use %, and one of them changes it", &[name]);
        match found.element {
            Some(element) => copies(look, row, (name, found.name), element, &mut told),
            None => each_copy(look, row, name, found, &mut told),
        }
        return Ok(told);
    }
    let parts = parts(look, row)?;
    let Some((one, two)) = sharers(look, &parts, found) else {
        told.say(
            "two parts of this PAR use %, and one of them changes it",
            &[name],
        );
        return Ok(told);
    };
    let both = one.1.does.changes() && two.1.does.changes();
    for (part, at) in [one, two] {
        let number = P::N(part.saturating_add(1));
        mark_use(
            look,
            &mut told,
            at,
            "P%%%",
            &[number, P::T(at.does.word()), name],
        );
    }
    if let (Some(first), Some(second)) = (parts.get(one.0), parts.get(two.0)) {
        others(look, found, (*first, *second), &mut told);
    }
    if both {
        told.say("two parts of this PAR use %, and both change it", &[name]);
        told.hint("write SEQ where the second is to come later", &[]);
    } else {
        let reader = if one.1.does.changes() { two.0 } else { one.0 };
        told.say(
            "two parts of this PAR use %, and one of them changes it",
            &[name],
        );
        told.hint(
            "give P% a variable of its own, and pass the value on a channel",
            &[P::N(reader.saturating_add(1))],
        );
    }
    Ok(told)
}

/// Another variable that both parts assign.
fn others(look: Look, name: Wanted, both: (Part, Part), told: &mut Told) {
    let (one, two) = both;
    for row in one.first..one.last.saturating_add(1) {
        let sides = Sides::of(look, row);
        for tok in 0..look.src.count(row) {
            let text = look.src.text_of(row, tok);
            let changes = sides
                .use_at(look, tok)
                .is_some_and(|found| found.does.changes());
            if !changes || text == name.name {
                continue;
            }
            let other = Wanted {
                name: text,
                element: None,
            };
            if let Some(second) = first_use(look, two, other, Test::Changes) {
                let (line, next) = (row.saturating_add(1), second.row.saturating_add(1));
                return told.also(
                    "% is assigned by both parts as well (lines % and %)",
                    &[P::B(text), P::N(line), P::N(next)],
                );
            }
        }
    }
}

/// The value of a replicator's index at which an item is an element.
fn value_for(look: Look, par: usize, found: Use, element: usize) -> Option<usize> {
    let src = look.src;
    let index = found.tok.saturating_add(2);
    if src.text_of(found.row, index) != src.text_of(par, 1) {
        return None;
    }
    let more = numeral(src.text_of(found.row, index.saturating_add(2)));
    let next = index.saturating_add(1);
    let value = if src.is(found.row, next, "PLUS") {
        element.checked_sub(more)?
    } else if src.is(found.row, next, "MINUS") {
        element.saturating_add(more)
    } else {
        element
    };
    let base = numeral(src.text_of(par, 3));
    let count = numeral(src.text_of(par, 5));
    if value >= base && value < base.saturating_add(count) {
        Some(value)
    } else {
        None
    }
}

fn number_word(number: usize) -> &'static str {
    match number {
        2 => "both names",
        3 => "all three names",
        4 => "all four names",
        5 => "all five names",
        _ => "all names",
    }
}

/// A variable that each copy of a replicated PAR changes.
fn each_copy<'x>(look: Look<'x>, par: usize, name: P<'x>, found: Wanted<'x>, told: &mut Told) {
    let part = Part {
        first: par.saturating_add(1),
        last: look.last_below(par),
    };
    if let Some(change) = first_use(look, part, found, Test::Changes) {
        let does = P::T(change.does.word());
        mark_use(look, told, change, "each copy%%", &[does, name]);
    }
    told.hint("write SEQ, or declare % inside the copies", &[name])
}

/// The copies of a replicated PAR that share an element.
fn copies<'x>(
    look: Look<'x>,
    par: usize,
    name: (P<'x>, &'x [u8]),
    element: usize,
    told: &mut Told,
) {
    let counter = P::B(look.src.text_of(par, 1));
    let last = look.last_below(par);
    let mut marks: usize = 0;
    for row in par.saturating_add(1)..last.saturating_add(1) {
        let sides = Sides::of(look, row);
        for tok in 0..look.src.count(row) {
            if marks >= 2 || look.src.text_of(row, tok) != name.1 {
                continue;
            }
            let Some(here) = sides.use_at(look, tok) else {
                continue;
            };
            if let Some(value) = value_for(look, par, here, element) {
                marks = marks.saturating_add(1);
                let (value, does) = (P::N(value), P::T(here.does.word()));
                let pieces = [value, counter, value, does, name.0];
                mark_use(look, told, here, "P[%] (% = %)%%", &pieces);
            }
        }
    }
    let count = numeral(look.src.text_of(par, 5));
    told.hint(
        "write SEQ, or one assignment with % on the left",
        &[P::T(number_word(count))],
    )
}

/// What is told of an end of a channel that parts of a PAR share.
pub fn shared_end(look: Look, scopes: &Scopes, row: usize, fault: &[u8]) -> Result<Told, Memory> {
    let (end, mark) = first_word(first_word(fault).1);
    let name = P::B(end);
    let (wants, verb) = if mark == b"!".as_slice() {
        (Does::OutputsOn, "output")
    } else {
        (Does::InputsOn, "input")
    };
    let repeats = look.repeats(row);
    let said = if repeats {
        "two copies of this PAR % on %"
    } else {
        "two parts of this PAR % on %"
    };
    let mut told = Told::new(look.alloc, look.all(row), fault);
    told.say(said, &[P::T(verb), name]);
    told.here("this PAR", &[]);
    let found = wanted_of(end);
    let mut count: usize = 0;
    for (i, part) in parts(look, row)?.as_slice().iter().enumerate() {
        let Some(here) = first_use(look, *part, found, Test::Is(wants)).filter(|_| count < 2) else {
            continue;
        };
        count = count.saturating_add(1);
        let span = look.toks(here.row, here.tok, here.end.saturating_add(1));
        let words = if repeats { "in each copy" } else { "P%%%" };
        told.mark(
            span,
            words,
            &[P::N(i.saturating_add(1)), P::T(wants.word()), name],
        );
    }
    if let Some(Sort::Chan(bits, _)) = scopes
        .place_of(found.name)
        .and_then(|place| scopes.decl(place))
        .map(|decl| decl.sort)
    {
        let copies = if repeats {
            numeral(look.src.text_of(row, 5))
        } else {
            2
        };
        told.hint(
            "each end of a channel is used by one part: take [%]CHAN OF % %, and an ALT at the other end",
            &[P::N(copies), P::T(width_word(bits)), P::B(found.name)],
        );
    }
    Ok(told)
}
