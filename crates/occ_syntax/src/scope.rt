ghost use Rattle.std.specs.Prelude.{◌≡◌, ◌↔◌, IsTrue};
ghost use Rattle.occ_syntax.specs.Counts.{bits_of_kind};
ghost use Rattle.occ_syntax.specs.Headers.{HaveOneHeader};

use crate::{Proc, same_parameters};
use occ_base::{Dir, List, Name, Width};

/// What a name in scope stands for.
#[derive(Clone, Copy, Debug, PartialEq, Eq, Hash)]
pub enum Kind {
    /// A variable of that width.
    Var(Width),
    /// A channel of that width. A parameter has the one direction in which the program may use it.
    Chan(Width, Option<Dir>),
}

impl Kind {
    /// The bits that it takes in a state: those of a variable's width, and 0 for a channel.
    pub fn bits(self) -> u8
        ensures { result ≡ bits_of_kind self }
    {
        match self {
            Kind::Var(width) => width.bits(),
            Kind::Chan(_, _) => 0,
        }
    }
}

/// The names in scope with their kinds, from outside in.
pub type Scope = List<(Name, Kind)>;

/// A program: its name, its parameters in order and its body. A channel parameter has its direction.
#[derive(Debug, Drop)]
pub struct Program {
    pub name: Name,
    pub params: Scope,
    pub body: Proc,
}

impl Program {
    /// Whether the program has the header of another: the same name and the same parameters. It takes no memory.
    pub fn has_header_of(&self, other: &Program) -> bool
        ensures { IsTrue result ↔ HaveOneHeader self.now other.now }
    {
        self.name == other.name && same_parameters(self.params.items(), other.params.items())
    }
}
