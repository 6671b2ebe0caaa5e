//! What is in scope, and how it is called in the model.

use crate::text::put;
use crate::texts::Texts;
use occ_syntax::{Kind, Memory, Name, push_number};

/// A variable or a channel, with its number in the model.
#[derive(Clone, Copy)]
pub(crate) struct Entry {
    pub(crate) name: Name,
    pub(crate) kind: Kind,
    pub(crate) number: u64,
}

/// What is in scope, the innermost last.
#[derive(Drop)]
pub(crate) struct Scope {
    pub(crate) texts: Texts,
    pub(crate) entries: Vec<Entry>,
}

impl Scope {
    /// What a name stands for.
    pub(crate) fn find(&self, name: Name) -> Option<Entry> {
        for entry in self.entries.as_slice() {
            if entry.name == name {
                return Some(*entry);
            }
        }
        None
    }

    /// How many bits a variable has.
    pub(crate) fn bits(&self, name: Name) -> u8 {
        match self.find(name) {
            Some(entry) => entry.kind.bits(),
            None => 1,
        }
    }

    /// Adds what the model calls the variable or the channel of a name: a letter, its number, and its own name, in which a dot and an
    /// opening bracket are a line below, and a closing one is left out.
    pub(crate) fn put_name(&self, text: &mut Vec<u8>, name: Name) -> Result<(), Memory> {
        match self.find(name) {
            Some(entry) => self.put_entry(text, entry),
            None => put(text, b"none"),
        }
    }

    pub(crate) fn put_entry(&self, text: &mut Vec<u8>, entry: Entry) -> Result<(), Memory> {
        put(text, letter(entry.kind))?;
        push_number(text, entry.number)?;
        put(text, b"_")?;
        for character in self.texts.get(entry.name) {
            put_character(text, *character)?;
        }
        Ok(())
    }
}

fn letter(kind: Kind) -> &'static [u8] {
    match kind {
        Kind::Var(_) => b"v",
        Kind::Chan(_, _) => b"c",
    }
}

fn put_character(text: &mut Vec<u8>, character: u8) -> Result<(), Memory> {
    match character {
        b'.' | b'[' => put(text, b"_"),
        b']' => Ok(()),
        character => Ok(text.push(character)?),
    }
}
