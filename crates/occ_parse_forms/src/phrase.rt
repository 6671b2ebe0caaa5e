ghost use Rattle.std.specs.Prelude.{◌≡◌, [], ◌∷◌, ◌++◌, OnOk, OnErr};

use crate::Item;
use occ_lex::{Memory, Name, Width};
use occ_syntax::Op;
use std::alloc::Global;
use std::marker::Model;

/// The index of an array's element as it is written.
#[derive(Clone, Copy, Debug, PartialEq, Eq)]
pub enum Index {
    /// A numeral.
    Number(u8),
    /// A replicator's index.
    Name(Name),
    /// A replicator's index and a numeral that is added to it.
    Plus(Name, u8),
    /// A replicator's index and a numeral that is taken from it.
    Minus(Name, u8),
}

/// An expression as it is written, but without its brackets. A bare numeral has no width yet.
#[derive(Debug, Drop)]
pub enum Phrase {
    /// A name or an element of an array.
    Item(Item),
    /// A bare numeral.
    Numeral(u8),
    /// A numeral with its width in brackets behind it.
    Typed(u8, Width),
    /// TRUE or FALSE.
    Truth(bool),
    /// NOT and an operand.
    Not(Box<Phrase>),
    /// `~` and an operand.
    Flip(Box<Phrase>),
    /// An operator between two operands. A chain of AND alone, or of OR alone, is read from the left.
    Two(Op, Box<Phrase>, Box<Phrase>),
}

/// A list of expressions.
#[derive(Debug, Drop)]
pub struct Phrases {
    list: Vec<Phrase>,
}

impl Model for Phrases {
    ghost use Rattle.std.specs.Prelude.{List};
    ghost use Rattle.std.specs.Coded.{coded_list};
    ghost use Rattle.occ_parse_forms.specs.declared.phrase.Phrase.{Phrase};
    ghost use Rattle.occ_parse_forms.specs.contracts.phrase.Phrase as code;

    ghost Value = { List Phrase };

    ghost coded = { coded_list code.the_row.coded };

    ghost view = { λ phrases. phrases.list.items };
}

impl Phrases {
    /// The empty list. It takes no memory.
    pub fn new(alloc: Global) -> Phrases
        ensures { result ≡ [] }
    {
        Phrases {
            list: Vec::new(alloc),
        }
    }

    /// Adds an expression at the end. Where memory runs out, the list is as before.
    pub fn push(&mut self, item: Phrase) -> Result<(), Memory>
        ensures ok { OnOk result (self.new ≡ self.old ++ item ∷ []) }
        ensures err { OnErr result (self.new ≡ self.old) }
    {
        self.list.push(item)?;
        Ok(())
    }

    /// The expressions in order. It takes no memory.
    pub fn items(&self) -> &[Phrase]
        ensures { result.now ≡ self.now }
    {
        self.list.as_slice()
    }
}
