//! What is declared at each row, as far as the rows can be understood.

use crate::lexical::numeral;
use crate::look::{Form, Look, width_of};
use indexmap::IndexSet;
use occ_check_text::{Memory, Source, TokKind};
use std::alloc::Global;

/// What a name stands for. A width is told by its bits, 0 for BOOL; a mark by its byte, 0 where there is none.
#[derive(Clone, Copy)]
pub enum Sort {
    Var(u8),
    Chan(u8, u8),
    Counter { base: usize, count: usize },
}

/// A declared name: where it stands, with its front where that stands directly before it; what it stands for; how many
/// elements it has, 0 where it is no array; and the rows in which it is in scope.
#[derive(Clone, Copy)]
pub struct Decl {
    pub name: usize,
    pub row: usize,
    pub tok: usize,
    pub from: usize,
    pub to: usize,
    pub sort: Sort,
    pub count: usize,
    pub element: Option<usize>,
    pub is_param: bool,
    pub blamed: bool,
    pub end: usize,
    older: usize,
}

/// Declarations that came together and govern the same rows.
#[derive(Clone, Copy)]
struct Group {
    level: usize,
    used: bool,
    first: usize,
}

/// All declarations so far, those in scope, and for each name the newest one in scope.
#[derive(Drop)]
pub struct Scopes {
    alloc: Global,
    names: IndexSet<Vec<u8>>,
    pub all: Vec<Decl>,
    open: Vec<usize>,
    groups: Vec<Group>,
    newest: Vec<usize>,
}

/// How many values a type of so many bits has; those of BOOL count as none.
pub fn size_of(bits: u8) -> usize {
    match bits {
        0 => 0,
        1 => 2,
        2 => 4,
        3 => 8,
        4 => 16,
        5 => 32,
        6 => 64,
        7 => 128,
        _ => 256,
    }
}

/// The front of a declaration: its sort, its count, and the token behind it.
#[derive(Clone, Copy)]
struct Front {
    sort: Sort,
    count: usize,
    end: usize,
}

/// The front that begins at a token.
fn front_at(src: &Source, row: usize, from: usize) -> Option<Front> {
    let mut i = from;
    let mut count = 0;
    if src.is(row, i, "[") {
        count = numeral(src.text_of(row, i.saturating_add(1)));
        i = i.saturating_add(3);
    }
    let is_channel = src.is(row, i, "CHAN");
    if is_channel {
        let next = i.saturating_add(1);
        i = if src.is(row, next, "OF") {
            next.saturating_add(1)
        } else {
            next
        };
    }
    let bits = width_of(src.text_of(row, i))?;
    let sort = if is_channel {
        Sort::Chan(bits, 0)
    } else {
        Sort::Var(bits)
    };
    Some(Front {
        sort,
        count,
        end: i.saturating_add(1),
    })
}

fn marked(sort: Sort, mark: &[u8]) -> Sort {
    match (sort, mark) {
        (Sort::Chan(bits, _), b"?") => Sort::Chan(bits, b'?'),
        (Sort::Chan(bits, _), b"!") => Sort::Chan(bits, b'!'),
        _ => sort,
    }
}

impl Scopes {
    pub fn new(alloc: Global) -> Scopes {
        Scopes {
            alloc,
            names: IndexSet::new(alloc),
            all: Vec::new(alloc),
            open: Vec::new(alloc),
            groups: Vec::new(alloc),
            newest: Vec::new(alloc),
        }
    }

    /// The number of a name.
    fn number(&mut self, name: &[u8]) -> Result<usize, Memory> {
        let number = match self.names.get_index_of(name) {
            Some(number) => number,
            None => {
                let copy = Vec::from_slice(self.alloc, name)?;
                self.names.insert_full(copy)?.0
            }
        };
        for _ in self.newest.len()..number.saturating_add(1) {
            self.newest.push(0)?;
        }
        Ok(number)
    }

    /// A declaration by its place.
    pub fn decl(&self, place: usize) -> Option<Decl> {
        self.all.get(place).copied()
    }

    /// The declaration in scope of the name at a token. It asks no memory: a name that was never declared has none.
    pub fn find(&self, src: &Source, row: usize, i: usize) -> Option<Decl> {
        self.place_of(src.text_of(row, i))
            .and_then(|place| self.decl(place))
    }

    /// The place of the declaration in scope of a name.
    pub fn place_of(&self, name: &[u8]) -> Option<usize> {
        let number = self.names.get_index_of(name)?;
        let place = *self.newest.get(number)?;
        place.checked_sub(1)
    }

    /// The newest declaration of a name, also where it isn't in scope.
    pub fn latest(&self, name: &[u8]) -> Option<Decl> {
        let number = self.names.get_index_of(name)?;
        self.all
            .iter()
            .rev()
            .find(|decl| decl.name == number)
            .copied()
    }

    /// The declarations in scope, oldest first.
    pub fn in_scope(&self) -> &[usize] {
        self.open.as_slice()
    }

    /// Says that a fault was told of the declaration at a place.
    pub fn blame(&mut self, place: usize) {
        if let Some(decl) = self.all.get_mut(place) {
            decl.blamed = true;
        }
    }

    fn close_group(&mut self, row: usize) {
        let first = match self.groups.pop() {
            Some(group) => group.first,
            None => 0,
        };
        for _ in first..self.open.len() {
            self.close_one(row);
        }
    }

    fn close_one(&mut self, row: usize) {
        let Some(place) = self.open.pop() else {
            return;
        };
        let Some(decl) = self.all.get_mut(place) else {
            return;
        };
        decl.end = row;
        let (name, older) = (decl.name, decl.older);
        if let Some(newest) = self.newest.get_mut(name) {
            *newest = older;
        }
    }

    /// Comes to a row: what no longer governs is closed.
    pub fn enter(&mut self, look: Look, row: usize) {
        let level = look.src.level(row);
        let declares = matches!(look.form(row), Form::Declare);
        for _ in 0..self.groups.len() {
            let Some(group) = self.groups.last() else {
                break;
            };
            if group.level > level || (group.level == level && group.used) {
                self.close_group(row);
            } else {
                break;
            }
        }
        if let Some(group) = self.groups.last_mut() {
            if group.level == level && !declares {
                group.used = true;
            }
        }
    }

    fn open_group(&mut self, level: usize, used: bool) -> Result<(), Memory> {
        let first = self.open.len();
        let joins = self
            .groups
            .last()
            .is_some_and(|group| group.level == level && !group.used);
        if !joins || used {
            self.groups.push(Group { level, used, first })?;
        }
        Ok(())
    }

    fn declare(&mut self, name: &[u8], decl: Decl) -> Result<(), Memory> {
        let number = self.number(name)?;
        let mut decl = decl;
        decl.name = number;
        if let Some(newest) = self.newest.get(number) {
            decl.older = *newest;
        }
        let place = self.all.len();
        self.open.push(place)?;
        self.all.push(decl)?;
        if let Some(newest) = self.newest.get_mut(number) {
            *newest = place.saturating_add(1);
        }
        Ok(())
    }

    /// Brings what a row declares into scope.
    pub fn pass(&mut self, look: Look, row: usize) -> Result<(), Memory> {
        let src = look.src;
        let level = src.level(row);
        match look.form(row) {
            Form::Header => {
                self.open_group(level, true)?;
                let end = src.find(row, 0, ")").unwrap_or(src.count(row));
                self.names_from(look, row, 3, end)
            }
            Form::Declare => {
                self.open_group(level, false)?;
                self.names_from(look, row, 0, src.count(row))
            }
            Form::Seq | Form::Par | Form::If | Form::Alt if look.repeats(row) => {
                self.open_group(level, true)?;
                self.counter(look, row)
            }
            _ => Ok(()),
        }
    }

    /// Brings a replicator's name into scope.
    fn counter(&mut self, look: Look, row: usize) -> Result<(), Memory> {
        let src = look.src;
        if !matches!(src.tok(row, 1).kind, TokKind::Name) {
            return Ok(());
        }
        let base = numeral(src.text_of(row, 3));
        let count = numeral(src.text_of(row, 5));
        let sort = Sort::Counter { base, count };
        self.declare(src.text_of(row, 1), blank(row, 1, 1, src.count(row), sort))
    }

    /// Brings the names of a list into scope, between two tokens of a row.
    fn names_from(&mut self, look: Look, row: usize, from: usize, to: usize) -> Result<(), Memory> {
        let src = look.src;
        let is_param = matches!(look.form(row), Form::Header);
        let mut front = None;
        let mut start = from;
        for i in from..to.saturating_add(1) {
            if i < to && !src.is(row, i, ",") && !src.is(row, i, ":") {
                continue;
            }
            let found = front_at(src, row, start);
            if found.is_some() {
                front = found;
            }
            if let Some(known) = front {
                let name = if found.is_some() { known.end } else { start };
                if name < i && matches!(src.tok(row, name).kind, TokKind::Name) {
                    let mut decl = blank(
                        row,
                        name,
                        start,
                        i,
                        marked(known.sort, src.text_of(row, name.saturating_add(1))),
                    );
                    decl.count = known.count;
                    if src.is(row, name.saturating_add(1), "[") {
                        decl.element = Some(numeral(src.text_of(row, name.saturating_add(2))));
                    }
                    decl.is_param = is_param;
                    self.declare(src.text_of(row, name), decl)?;
                }
            }
            start = i.saturating_add(1);
        }
        Ok(())
    }
}

/// A declaration of that sort at a token, with what belongs to it.
pub fn blank(row: usize, tok: usize, from: usize, to: usize, sort: Sort) -> Decl {
    Decl {
        name: 0,
        row,
        tok,
        from,
        to,
        sort,
        count: 0,
        element: None,
        is_param: false,
        blamed: false,
        end: 0,
        older: 0,
    }
}
