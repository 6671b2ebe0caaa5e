use crate::{Index, Phrase, Phrases};
use occ_lex::{List, Name};
use occ_syntax::Kind;

/// A name, or an element of the array of that name.
#[derive(Clone, Copy, Debug, PartialEq, Eq)]
pub struct Item {
    pub name: Name,
    pub index: Option<Index>,
}

/// The left side of an assignment.
pub type Items = List<Item>;

/// How many elements a declaration in front of which `[n]` stands gives each of its names: 1 to 255.
pub type Count = u8;

/// A name as it is declared: by itself, as one element whose place is a numeral, or as an array of so many elements.
#[derive(Clone, Copy, Debug, PartialEq, Eq)]
pub enum Declared {
    /// The name itself.
    Plain(Name),
    /// The one element at that place.
    Element(Name, u8),
    /// The elements from 0 on, 1 to 255 of them.
    Array(Name, Count),
}

/// A parameter: what it declares, and its kind. A channel has its mark.
#[derive(Clone, Copy, Debug, PartialEq, Eq)]
pub struct Param {
    pub declared: Declared,
    pub kind: Kind,
}

/// A declaration line: what it declares, in order, all of one kind. A channel has no mark.
#[derive(Debug, Drop)]
pub struct Declaration {
    pub kind: Kind,
    pub declared: List<Declared>,
}

/// The word of a construct.
#[derive(Clone, Copy, Debug, PartialEq, Eq)]
pub enum Group {
    Seq,
    Par,
    If,
    Alt,
}

/// A replicator: its index takes so many values from the base on.
#[derive(Clone, Copy, Debug, PartialEq, Eq)]
pub struct Times {
    pub index: Name,
    pub base: u8,
    pub count: u8,
}

/// What a guard waits for, as it is written.
#[derive(Debug, Drop)]
pub enum Wants {
    Skip,
    Input { chan: Item, var: Item },
    Output { chan: Item, value: Phrase },
}

/// What a line says.
#[derive(Debug, Drop)]
pub enum Form {
    /// `PROC name (parameters)`
    Header { name: Name, params: List<Param> },
    /// The closing `:`.
    Close,
    Skip,
    Stop,
    /// An assignment: one variable or more and as many expressions; the variables without an index are distinct.
    Assign { left: Items, right: Phrases },
    /// An input; among alternatives it is a guard.
    Input { chan: Item, var: Item },
    /// An output; among alternatives it is a guard.
    Output { chan: Item, value: Phrase },
    /// One of the four words of constructs, alone or with a replicator.
    Group { group: Group, times: Option<Times> },
    /// A declaration.
    Declare(Declaration),
    /// An expression alone: the condition of a choice.
    Condition(Phrase),
    /// A guard with its condition: a condition, `&`, and an input, an output or SKIP.
    Guard { condition: Phrase, wants: Wants },
    /// None of the forms.
    Nothing,
}
