ghost use Rattle.std.specs.Prelude.{◌≡◌};
ghost use Rattle.occ_base.specs.Width.{bits_of};

/// The type of a value: a truth value, or a word of 1 to 8 bits.
#[derive(Clone, Copy, Debug, PartialEq, Eq, PartialOrd, Ord, Hash)]
pub enum Width {
    /// FALSE or TRUE, which count as 0 and 1.
    Bool,
    /// An unsigned word of that many bits, from 1 to 8.
    Word(u8),
}

impl Width {
    /// The number of bits of a value: 1 for a truth value.
    pub fn bits(self) -> u8
        ensures { result ≡ bits_of self }
    {
        match self {
            Width::Bool => 1,
            Width::Word(bits) => bits,
        }
    }
}
