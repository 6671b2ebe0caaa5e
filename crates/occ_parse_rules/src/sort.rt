use occ_meaning::{Dir, Width};
use occ_parse_forms::Declared;

/// What a name in scope stands for.
#[derive(Clone, Copy, Debug, PartialEq, Eq)]
pub enum Sort {
    /// A variable of that width.
    Variable(Width),
    /// A channel of that width. A parameter has the one direction in which the program may use it.
    Channel(Width, Option<Dir>),
    /// A replicator's index: it takes `count` values from `base` on, and the base alone where the count is 0.
    Counter { base: u8, count: u8 },
}

/// A declaration in scope: what it declares, and what that stands for.
#[derive(Clone, Copy, Debug, PartialEq, Eq)]
pub struct Entry {
    pub declared: Declared,
    pub sort: Sort,
}
