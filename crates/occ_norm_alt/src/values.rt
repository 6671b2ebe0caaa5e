ghost use Rattle.std.specs.Prelude.{◌≡◌, ◌↔◌, ◌+◌, ◌^◌, ◌<◌, ◌≤◌, IsTrue};

use occ_syntax::Name;

/// The inputs of a variable from a channel. The bits of the variable begin at `first`, and those among `keep` are told as changes.
#[derive(Clone, Copy)]
pub(crate) struct Inputs {
    pub chan: Name,
    pub first: u32,
    pub bits: u32,
    pub keep: u64,
    pub ghost some: { 1 ≤ bits },
    pub ghost few: { bits ≤ 8 },
    pub ghost within: { first + bits ≤ 64 },
}

impl Inputs {
    /// Whether a bit is one of the variable's.
    pub fn has(self, bit: u32) -> bool
        ensures { IsTrue result ↔ ((self.first ≤ bit) × (bit < self.first + self.bits)) }
    {
        self.first <= bit && bit - self.first < self.bits
    }
}

/// The values that have some digits above those that are left: so many from `base` on as those digits have values.
#[derive(Clone, Copy)]
pub(crate) struct Block {
    pub base: u8,
    pub left: u32,
    pub ghost few: { left ≤ 8 },
    pub ghost room: { base + 2 ^ left ≤ 256 },
}

impl Block {
    /// The values of so many digits.
    pub fn of(digits: u32) -> Block
        requires { digits ≤ 8 }
        ensures base { result.base ≡ 0 }
        ensures left { result.left ≡ digits }
    {
        Block {
            base: 0,
            left: digits,
        }
    }

    /// The lower half, whose highest digit is 0.
    pub fn low(self) -> Block
        requires { 1 ≤ self.left }
        ensures base { result.base ≡ self.base }
        ensures left { result.left + 1 ≡ self.left }
    {
        Block {
            base: self.base,
            left: self.left - 1,
        }
    }

    /// The upper half, whose highest digit is 1.
    pub fn high(self) -> Block
        requires { 1 ≤ self.left }
        ensures base { result.base ≡ self.base + 2 ^ result.left }
        ensures left { result.left + 1 ≡ self.left }
    {
        let left = self.left - 1;
        Block {
            base: self.base + (1 << left),
            left,
        }
    }
}
