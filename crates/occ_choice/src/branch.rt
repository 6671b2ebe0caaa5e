use occ_node::{Event, NodeId};

/// An enabled branch of an ALT, with the behaviours of its process.
#[derive(Clone, Copy, Debug, PartialEq, Eq)]
pub enum Branch {
    /// Its guard is SKIP.
    Skip(NodeId),
    /// Its guard is that event.
    Event(Event, NodeId),
}
