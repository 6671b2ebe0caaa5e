/// What is wrong with the names of a line.
#[derive(Clone, Copy, Debug, PartialEq, Eq)]
pub enum NameFault {
    /// A name isn't in scope.
    Undeclared,
    /// A name that is in scope is declared again.
    Redeclared,
    /// An element isn't in scope for some value of its index, or two left items of an assignment are one element.
    Index,
}

/// What is wrong with the types of a line.
#[derive(Clone, Copy, Debug, PartialEq, Eq)]
pub enum TypeFault {
    /// Two types differ where they must be one, or a value doesn't fit.
    TypeClash,
    /// A comparison has no operand with a width.
    NoType,
}
