ghost use Rattle.std.specs.Prelude.{◌≡◌};
ghost use Rattle.occ_usage.specs.Accepted.{IsAccepted, IsFaultless};

use occ_syntax::Program;

/// A program that keeps names, types, directions, usage and the limits of programs. It is made by `check` alone.
#[derive(Drop)]
pub struct Accepted {
    pub(crate) program: Program,
    pub ghost kept: { IsFaultless program },
}

impl Accepted {
    /// The program. It takes no memory.
    pub fn program(&self) -> &Program
        ensures same { result.now ≡ self.now.program }
        ensures accepted { IsAccepted result.now }
    {
        &self.program
    }
}
