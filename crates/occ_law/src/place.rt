ghost use Rattle.std.specs.Prelude.{◌≡◌, ◌↔◌, IsTrue, []};
ghost use Rattle.occ_law.specs.Instances.{IsSize, sizes};

/// Where a law changes a part: how many items of its lists stand in front of the changed place. Laws that change a part as a whole
/// have no such list, others one, and two laws of ALT have two.
#[derive(Clone, Copy, Debug, PartialEq, Eq)]
pub enum Place {
    /// The whole part.
    Whole,
    /// Behind that many items.
    Behind(usize),
    /// Behind that many items, and then behind that many items more, not counting the item between these.
    Between(usize, usize),
}

impl Place {
    /// Whether the place is the whole part.
    pub fn is_whole(self) -> bool
        ensures { IsTrue result ↔ (sizes self ≡ []) }
    {
        match self {
            Place::Whole => true,
            Place::Behind(_) | Place::Between(_, _) => false,
        }
    }

    /// The size of the one list in front of the place; None exactly where there isn't one list.
    pub fn size_before(self) -> Option<usize>
        ensures { IsSize (sizes self) result }
    {
        match self {
            Place::Behind(size) => Some(size),
            Place::Whole | Place::Between(_, _) => None,
        }
    }
}
