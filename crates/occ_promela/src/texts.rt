//! The texts of names.

use occ_syntax::{Memory, Name, Names};
use std::marker::Model;

/// The texts of the names of a program that was read.
#[derive(Drop)]
pub(crate) struct Texts {
    names: Names,
    // All names before this one have texts.
    end: Name,
}

impl Model for Texts {
    ghost use Rattle.std.specs.Prelude.{ℕ, List, ◌≤◌, length};

    ghost Value = { List (List ℕ) };

    ghost view = { λ texts. texts.names };

    ghost invariant = { λ texts. texts.end.0 ≤ length texts.names };
}

impl Texts {
    /// The texts of the names of a table.
    pub(crate) fn new(mut names: Names) -> Result<Texts, Memory> {
        // no name is a hyphen, so it comes last
        let end = names.intern(b"-")?;
        Ok(Texts { names, end })
    }

    /// The text of a name, and nothing for one that isn't in the table.
    pub(crate) fn get(&self, name: Name) -> &[u8] {
        if name.0 < self.end.0 {
            self.names.text(name)
        } else {
            b""
        }
    }
}
