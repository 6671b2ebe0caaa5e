//! What is told of a text that is refused: the fault of the refusal first, and further ones that don't rest on it.

use crate::expr::what_of;
use crate::limits::{Limit, no_type, over};
use crate::look::{Form, Look, width_word};
use crate::scope::Scopes;
use crate::{layout, lexical, naming, syntax, typing, usage};
use indexmap::IndexSet;
use occ_check_text::{Memory, Piece as P, TextKind, TokKind, Told};

/// Why a text is refused.
#[derive(Clone, Copy)]
pub enum Fault {
    Tab,
    OddIndent,
    Char,
    Number,
    Name,
    Form,
    Undeclared,
    Redeclared,
    Index,
    TypeClash,
    NoType,
    Direction,
    Over(Limit),
    SharedVariable,
    SharedEnd,
}

/// A refusal: its row, counted from 0, its fault, and the fault's words.
#[derive(Clone, Copy)]
pub struct Refused<'a> {
    pub row: usize,
    pub fault: Fault,
    pub words: &'a [u8],
}

/// The first word, and what stands behind the space behind it.
pub fn first_word(words: &[u8]) -> (&[u8], &[u8]) {
    let len = words.iter().take_while(|byte| **byte != b' ').count();
    let (first, rest) = words.split_at(len.min(words.len()));
    match rest {
        [_, behind @ ..] => (first, behind),
        [] => (first, rest),
    }
}

/// The faults by the words that they begin with; each other one is of form.
const FAULTS: [(&str, Fault); 22] = [
    ("Line Tab", Fault::Tab),
    ("Line OddIndent", Fault::OddIndent),
    ("Line Char", Fault::Char),
    ("Line Number", Fault::Number),
    ("Line Name", Fault::Name),
    ("Limit Bytes", Fault::Over(Limit::Bytes)),
    ("Limit Levels", Fault::Over(Limit::Levels)),
    ("Limit Tokens", Fault::Over(Limit::Tokens)),
    ("Limit Parameters", Fault::Over(Limit::Parameters)),
    ("Limit Count", Fault::Over(Limit::Count)),
    ("Limit Controls", Fault::Over(Limit::Controls)),
    ("Limit InterfaceBits", Fault::Over(Limit::InterfaceBits)),
    ("Limit ScopeBits", Fault::Over(Limit::ScopeBits)),
    ("Undeclared", Fault::Undeclared),
    ("Redeclared", Fault::Redeclared),
    ("Index", Fault::Index),
    ("TypeClash", Fault::TypeClash),
    ("NoType", Fault::NoType),
    ("Direction", Fault::Direction),
    ("SharedVariable", Fault::SharedVariable),
    ("SharedEnd", Fault::SharedEnd),
    ("Form", Fault::Form),
];

/// The fault that a refusal's words tell.
fn fault_of(words: &[u8]) -> Fault {
    for (name, fault) in &FAULTS {
        if words.starts_with(name.as_bytes()) {
            return *fault;
        }
    }
    Fault::Form
}

impl<'a> Refused<'a> {
    /// A refusal on a line, counted from 1, with these words for its fault.
    pub fn on(line: u32, words: &'a [u8]) -> Refused<'a> {
        let row = (line as usize).saturating_sub(1);
        let fault = fault_of(words);
        Refused { row, fault, words }
    }
}

/// The most further errors that are told.
const MOST_FURTHER: usize = 19;

/// The most faulty rows that are looked at.
const MOST_TRIES: usize = 60;

/// What is told of the fault for which a text is refused. The scopes are those of its row.
pub fn first(look: Look, scopes: &Scopes, refused: Refused) -> Result<Told, Memory> {
    let row = refused.row;
    Ok(match refused.fault {
        Fault::Tab => lexical::tab(look, row),
        Fault::OddIndent => lexical::odd_indent(look, row),
        Fault::Char => lexical::char(look, scopes, row),
        Fault::Number => lexical::number(look, row),
        Fault::Name => lexical::name(look, row),
        Fault::Form => layout::form_fault(look, row),
        Fault::Undeclared => naming::undeclared(look, scopes, row),
        Fault::Redeclared => naming::redeclared(look, scopes, row)?,
        Fault::Index => naming::index(look, scopes, row),
        Fault::TypeClash => match typing::type_clash(look, scopes, row)? {
            Some(told) => told,
            None => naming::unknown(look, row, "TypeClash", "two types differ on this line"),
        },
        Fault::NoType => no_type(look, row),
        Fault::Direction => naming::direction(look, scopes, row),
        Fault::Over(which) => over(look, scopes, row, which)?,
        Fault::SharedVariable => usage::shared_variable(look, row, refused.words)?,
        Fault::SharedEnd => usage::shared_end(look, scopes, row, refused.words)?,
    })
}

/// Whether a row goes on from the one before, which ends where more must follow.
fn goes_on(look: Look, row: usize) -> bool {
    let Some(before) = look.before(row) else {
        return false;
    };
    let last = look
        .src
        .text_of(before, look.src.count(before).saturating_sub(1));
    matches!(last, b"," | b"(" | b":=") || what_of(last).is_some()
}

/// What is wrong with a row's own bytes, whatever stands around it.
fn bytes_fault(look: Look, scopes: &Scopes, row: usize) -> Option<Told> {
    let src = look.src;
    let found = src.row(row);
    if src.bytes(row, 0, found.code).contains(&b'\t') {
        return Some(lexical::tab(look, row));
    }
    if found.indent % 2 == 1 {
        return Some(lexical::odd_indent(look, row));
    }
    for i in 0..src.count(row) {
        let tok = src.tok(row, i);
        match tok.kind {
            TokKind::Other => return Some(lexical::char(look, scopes, row)),
            TokKind::Name if tok.len > 32 => return Some(lexical::name(look, row)),
            TokKind::Numeral if lexical::numeral(src.text_of(row, i)) > 255 => {
                return Some(lexical::number(look, row));
            }
            _ => {}
        }
    }
    None
}

/// A walk through the rows of a text that collects what is told.
#[derive(Drop)]
struct Walk<'a> {
    look: Look<'a>,
    scopes: Scopes,
    further: Vec<Told>,
    spoilt: IndexSet<Vec<u8>>,
    faulty: Vec<bool>,
    tries: usize,
    loose: bool,
}

impl<'a> Walk<'a> {
    fn new(look: Look<'a>) -> Walk<'a> {
        Walk {
            look,
            scopes: Scopes::new(look.alloc),
            further: Vec::new(look.alloc),
            spoilt: IndexSet::new(look.alloc),
            faulty: Vec::new(look.alloc),
            tries: 0,
            loose: false,
        }
    }

    /// The names of a row stand for nothing that is known.
    fn spoil(&mut self, row: usize) -> Result<(), Memory> {
        self.note(row)?;
        let look = self.look;
        for i in 0..look.src.count(row) {
            if matches!(look.src.tok(row, i).kind, TokKind::Name) {
                let copy = Vec::from_slice(look.alloc, look.src.text_of(row, i))?;
                self.spoilt.insert_full(copy)?;
            }
        }
        Ok(())
    }

    /// Blames the declarations that a row names.
    fn blame(&mut self, row: usize) {
        let src = self.look.src;
        for i in 0..src.count(row) {
            if matches!(src.tok(row, i).kind, TokKind::Name) {
                if let Some(place) = self.scopes.place_of(src.text_of(row, i)) {
                    self.scopes.blame(place);
                }
            }
        }
    }

    /// Whether a row names a declaration that is blamed.
    fn is_blamed(&self, row: usize) -> bool {
        let src = self.look.src;
        (0..src.count(row)).any(|i| {
            matches!(src.tok(row, i).kind, TokKind::Name)
                && self
                    .scopes
                    .find(src, row, i)
                    .is_some_and(|decl| decl.blamed)
        })
    }

    /// Whether the same was said before.
    fn was_said(&self, first: Option<&Told>, told: &Told) -> bool {
        let said = told.sentence.bytes();
        first.is_some_and(|other| other.sentence.bytes() == said)
            || self
                .further
                .iter()
                .any(|other| other.sentence.bytes() == said)
    }

    /// What is wrong with the names, types and directions of a row, where that rests on no other fault.
    fn judged(&mut self, row: usize) -> Result<Option<Told>, Memory> {
        let look = self.look;
        if let Some(i) = naming::undeclared_at(look, &self.scopes, row) {
            let spoilt = self.spoilt.get_index_of(look.src.text_of(row, i)).is_some();
            self.spoil(row)?;
            return if spoilt {
                Ok(None)
            } else {
                Ok(Some(naming::undeclared(look, &self.scopes, row)))
            };
        }
        if naming::redeclared_at(look, &self.scopes, row)?.is_some() {
            return Ok(Some(naming::redeclared(look, &self.scopes, row)?));
        }
        if naming::outside_at(look, &self.scopes, row).is_some() {
            return Ok(Some(naming::index(look, &self.scopes, row)));
        }
        if let Some(told) = typing::type_clash(look, &self.scopes, row)? {
            if !self.is_blamed(row) {
                self.blame(row);
                return Ok(Some(told));
            }
            self.tell_also(row);
        }
        if typing::against_at(look, &self.scopes, row).is_some() {
            return Ok(Some(naming::direction(look, &self.scopes, row)));
        }
        Ok(None)
    }

    /// Adds a further clash of the same types to what was told last of them.
    fn tell_also(&mut self, row: usize) {
        let look = self.look;
        if !matches!(look.form(row), Form::Condition) || look.src.count(row) != 3 {
            return;
        }
        let types = (
            typing::ty_of(look, &self.scopes, row, 0),
            typing::ty_of(look, &self.scopes, row, 2),
        );
        let (typing::Ty::Bits(left), typing::Ty::Bits(right)) = types else {
            return;
        };
        let pieces = [
            P::B(look.src.between(row, 0, 3)),
            P::N(row.saturating_add(1)),
            P::T(width_word(left)),
            P::T(width_word(right)),
        ];
        for told in &mut self.further {
            if told.fault.bytes() == b"TypeClash".as_slice() && !told.has_also() {
                return told.also("% on line % compares a % with a %", &pieces);
            }
        }
    }

    /// Whether what a row says can't be known: it goes on from the one before, or is a condition below a faulty row.
    fn is_unclear(&self, row: usize) -> bool {
        let look = self.look;
        let below = look
            .parent(row)
            .is_some_and(|parent| self.is_faulty(parent));
        goes_on(look, row) || (below && matches!(look.form(row), Form::Condition))
    }

    /// What is wrong with a row's own bytes and words.
    fn own_fault(&self, row: usize) -> Option<Told> {
        let told = bytes_fault(self.look, &self.scopes, row);
        if told.is_some() {
            return told;
        }
        syntax::words_fault(self.look, row)
    }

    /// Whether a fault of a row's own words was found.
    fn is_faulty(&self, row: usize) -> bool {
        self.faulty.get(row).copied().unwrap_or(false)
    }

    /// Notes that a row is faulty.
    fn note(&mut self, row: usize) -> Result<(), Memory> {
        for _ in self.faulty.len()..row.saturating_add(1) {
            self.faulty.push(false)?;
        }
        if let Some(place) = self.faulty.get_mut(row) {
            *place = true;
        }
        Ok(())
    }

    /// What is wrong with a row.
    fn row_fault(&mut self, row: usize) -> Result<Option<Told>, Memory> {
        if matches!(self.look.form(row), Form::Header) {
            return Ok(None);
        }
        if self.is_unclear(row) {
            self.spoil(row)?;
            return Ok(None);
        }
        if let Some(told) = self.own_fault(row) {
            self.spoil(row)?;
            self.tries = self.tries.saturating_add(1);
            return Ok(Some(told));
        }
        if self.loose {
            return Ok(None);
        }
        self.judged(row)
    }

    /// Adds what is wrong with a row, where there is room for it and the same wasn't said before.
    fn look_further(&mut self, row: usize, first: Option<&Told>) -> Result<(), Memory> {
        if self.further.len() >= MOST_FURTHER || self.tries >= MOST_TRIES {
            return Ok(());
        }
        if let Some(found) = self.row_fault(row)? {
            if !self.was_said(first, &found) {
                self.further.push(found)?;
            }
        }
        Ok(())
    }
}

/// Whether a fault is one of the row's own words.
fn is_own(look: Look, refused: Refused) -> bool {
    match refused.fault {
        Fault::Form => {
            Some(refused.row) != look.first() && syntax::words_fault(look, refused.row).is_some()
        }
        Fault::Tab | Fault::OddIndent | Fault::Char | Fault::Number | Fault::Name => true,
        _ => false,
    }
}

/// What is told of a file of another kind where a program is wanted.
fn another_kind(look: Look, row: usize, refused: Refused) -> Option<Told> {
    let kind = TextKind::of(look.src);
    if refused.row != row || matches!(kind, TextKind::Program | TextKind::Unknown) {
        return None;
    }
    let mut told = Told::new(look.alloc, look.all(row), refused.words);
    told.say("this is %, and no program", &[P::T(kind.word())]);
    told.here("expected PROC, found %", &[P::T(kind.begins())]);
    told.hint("it is for the command %", &[P::T(kind.taken_by())]);
    Some(told)
}

/// What is told of a text that is refused: the refusal's fault first, then further ones by their rows.
pub fn errors(look: Look, refused: Refused) -> Result<Vec<Told>, Memory> {
    let first = look.first().unwrap_or(0);
    if let Some(told) = another_kind(look, first, refused) {
        let mut all = Vec::new(look.alloc);
        all.push(told)?;
        return Ok(all);
    }
    all_errors(look, refused)
}

fn all_errors(look: Look, refused: Refused) -> Result<Vec<Told>, Memory> {
    let mut walk = Walk::new(look);
    let own = is_own(look, refused);
    walk.loose = matches!(refused.fault, Fault::Form) && !own;
    if own {
        walk.spoil(refused.row)?;
    }
    let mut told: Option<Told> = None;
    let mut closed = false;
    let rows = look.src.rows();
    for row in 0..rows {
        if look.src.is_blank(row) {
            continue;
        }
        walk.scopes.enter(look, row);
        if row == refused.row {
            let found = first(look, &walk.scopes, refused)?;
            if matches!(refused.fault, Fault::TypeClash) {
                walk.blame(row);
            }
            if matches!(refused.fault, Fault::Undeclared) {
                walk.spoil(row)?;
            }
            told = Some(found);
        } else {
            walk.look_further(row, told.as_ref())?;
        }
        walk.scopes.pass(look, row)?;
        closed = closed || (look.src.level(row) == 0 && matches!(look.form(row), Form::Close));
        if closed && row >= refused.row {
            break;
        }
    }
    let lead = match told {
        Some(found) => found,
        None => first(look, &walk.scopes, refused)?,
    };
    let mut all = Vec::new(look.alloc);
    all.push(lead)?;
    let Walk { further, .. } = walk;
    for found in further {
        all.push(found)?;
    }
    Ok(all)
}
