ghost use Rattle.std.specs.Prelude.{◌≡◌};
ghost use Rattle.occ_script.specs.Contents.{bound_of, frame_of};

use occ_parse_part::{Bound, Frame};

/// What the lines of a section are together.
#[derive(Clone, Copy, Debug, PartialEq, Eq)]
pub enum Content {
    /// The program behind FROM.
    First,
    /// The part of a step or an order.
    Part,
    /// The program behind TO.
    Last,
}

impl Content {
    /// Which limits bind the lines.
    pub(crate) fn bound(self) -> Bound
        ensures { result ≡ bound_of self }
    {
        match self {
            Content::First => Bound::First,
            Content::Part | Content::Last => Bound::Script,
        }
    }

    /// How the lines are to be laid out.
    pub(crate) fn frame(self) -> Frame
        ensures { result ≡ frame_of self }
    {
        match self {
            Content::First => Frame::Program,
            Content::Part => Frame::Part,
            Content::Last => Frame::Plain,
        }
    }
}
