ghost use Rattle.std.specs.Prelude.{◌≡◌, ◌∷◌, []};
ghost use Rattle.occ_names.specs.Mentions.{used, set_in, ends_in, number_in, end_in};

use occ_syntax::{Dir, Name};

/// What a part does with a name.
#[derive(Clone, Copy, Debug, PartialEq, Eq)]
pub enum Mention {
    /// It takes the value of a variable.
    Read(Name),
    /// It assigns to a variable, or inputs into it.
    Write(Name),
    /// It uses a channel in a direction.
    End(Name, Dir),
    /// It declares a name for a process of its own.
    Declare(Name),
}

impl Mention {
    /// The name that is used; None for a declaration.
    pub fn used(self) -> Option<Name>
        ensures { number_in result ≡ used (self ∷ []) }
    {
        match self {
            Mention::Read(name) | Mention::Write(name) | Mention::End(name, _) => Some(name),
            Mention::Declare(_) => None,
        }
    }

    /// The variable that is assigned or input; None for all else.
    pub fn written(self) -> Option<Name>
        ensures { number_in result ≡ set_in (self ∷ []) }
    {
        match self {
            Mention::Write(name) => Some(name),
            _ => None,
        }
    }

    /// The end of a channel that is used; None for all else.
    pub fn end(self) -> Option<(Name, Dir)>
        ensures { end_in result ≡ ends_in (self ∷ []) }
    {
        match self {
            Mention::End(chan, dir) => Some((chan, dir)),
            _ => None,
        }
    }
}
