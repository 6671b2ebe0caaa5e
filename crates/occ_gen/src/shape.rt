ghost use Rattle.std.specs.Prelude.{◌≡◌};
ghost use Rattle.occ_gen.specs.Programs.{header as header_of, width as width_of, messages as messages_of};

/// What the cells of a chain do with each message.
#[derive(Clone, Copy, Debug, PartialEq, Eq)]
pub enum Shape {
    /// A chain of one-place buffers: each passes on the bits that it reads, ten of them.
    Buffers,
    /// A chain of incrementers: each sends one more than it reads, modulo 4, five times.
    Adders,
    /// A chain of switches: the one whose number, modulo 16, is the value of the parameter `s` turns the bits that it
    /// reads, and the others pass them on, six of them.
    Muxes,
}

impl Shape {
    /// The line that names the program and its parameters.
    pub fn header(self) -> &'static [u8]
        ensures { result.now ≡ header_of self }
    {
        match self {
            Shape::Buffers => b"PROC buffers (CHAN OF WORD1 in?, CHAN OF WORD1 out!)",
            Shape::Adders => b"PROC adders (CHAN OF WORD2 in?, CHAN OF WORD2 out!)",
            Shape::Muxes => b"PROC muxes (WORD4 s, CHAN OF WORD1 in?, CHAN OF WORD1 out!)",
        }
    }

    /// The width of what the channels carry.
    pub fn width(self) -> &'static [u8]
        ensures { result.now ≡ width_of self }
    {
        match self {
            Shape::Buffers => b"WORD1",
            Shape::Adders => b"WORD2",
            Shape::Muxes => b"WORD1",
        }
    }

    /// How many messages each cell passes on.
    pub fn messages(self) -> u8
        ensures { result ≡ messages_of self }
    {
        match self {
            Shape::Buffers => 10,
            Shape::Adders => 5,
            Shape::Muxes => 6,
        }
    }
}
