/// A node of a diagram. Nodes are known by their numbers.
#[derive(Clone, Copy, Debug, PartialEq, Eq, Hash)]
pub enum Node<T> {
    /// The function that has one label at every assignment.
    Leaf(T),
    /// The function that a bit of the assignment chooses.
    Branch(Decision),
}

/// A choice by one bit, which is below 64.
#[derive(Clone, Copy, Debug, PartialEq, Eq, Hash)]
pub struct Decision {
    /// The bit that is read.
    pub bit: u32,
    /// The number of the node for the assignments that have 0 there.
    pub low: usize,
    /// The number of the node for the assignments that have 1 there.
    pub high: usize,
}
