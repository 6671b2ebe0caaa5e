use occ_parse_rules::Form;

/// A line of a text: its number counted from 1, its level, and what it says.
#[derive(Debug, Drop)]
pub struct Placed {
    pub number: u32,
    pub level: u32,
    pub form: Form,
}

/// What lines are to be together.
#[derive(Clone, Copy, Debug, PartialEq, Eq)]
pub enum Frame {
    /// A program: the header first, at level 0, one slot below it, and the closing line last, at level 0.
    Program,
    /// A program without replicators.
    Plain,
    /// One slot at level 1, without replicators, header and closing line.
    Part,
}
