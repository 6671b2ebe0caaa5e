use occ_syntax::{Events, State};

/// How a behaviour stands after its trace.
#[derive(Debug, Drop)]
pub enum Last {
    /// The program can be stable and not ended, and refuse each of these events. They are strictly increasing in the
    /// order of what is written: by the channel's place among the parameters, and then by value.
    Refuses(Events),
    /// The program can have ended in this state.
    Ends(State),
}

/// One behaviour of a program: a state of its parameter variables to begin with, a trace, and how it stands then.
#[derive(Debug, Drop)]
pub struct Behaviour {
    pub state: State,
    pub trace: Events,
    pub last: Last,
}

/// One of two programs, by the order in which they were given.
#[derive(Clone, Copy, Debug, PartialEq, Eq)]
pub enum Side {
    First,
    Second,
}

/// What a comparison of two programs finds.
#[derive(Debug, Drop)]
pub enum Verdict {
    /// They mean the same.
    Same,
    /// They differ: this behaviour belongs to one of them alone.
    Differ { behaviour: Behaviour, only: Side },
}
