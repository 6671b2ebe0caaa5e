ghost use Rattle.std.specs.Prelude.{◌+◌, ◌<◌, ◌≤◌, length};

/// The two formats: which words begin a keyword line.
#[derive(Clone, Copy, Debug, PartialEq, Eq)]
pub enum Format {
    /// FROM, STEP and TO.
    Script,
    /// ORDER.
    Orders,
}

/// A keyword line of a text, and the text up to the next one.
#[derive(Clone, Copy, Debug)]
pub struct Section<'a> {
    /// The number of the keyword line, from 1.
    pub number: u32,
    /// Where the keyword line begins.
    pub start: usize,
    /// Where the lines behind the keyword line begin.
    pub end: usize,
    /// The text from its beginning up to the next keyword line.
    pub upto: &'a [u8],
    ghost ordered: { start ≤ end },
    ghost within: { end ≤ length upto.now },
    ghost counted: { number ≤ end },
    ghost small: { length upto.now < 4294967295 },
}

/// The sections of a text that are left, of which the first of all begins with the text's first line.
#[derive(Clone, Copy, Debug)]
pub struct Sections<'a> {
    pub(crate) format: Format,
    pub(crate) text: &'a [u8],
    /// Where the next section begins.
    pub(crate) at: usize,
    /// The number of the line there.
    pub(crate) number: u32,
    ghost within: { at ≤ length text.now },
    ghost counted: { number ≤ at + 1 },
    ghost small: { length text.now < 4294967295 },
}
