/// Which limits bind a text.
#[derive(Clone, Copy, Debug, PartialEq, Eq)]
pub enum Bound {
    /// A program of its own: all limits.
    Program,
    /// The program before the steps of a script: all limits but the one on bytes.
    First,
    /// The program behind the steps of a script: the limit on the tokens of a line alone. It has no replicators.
    Script,
}
