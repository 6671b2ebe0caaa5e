use occ_syntax::Event;

/// What is done to the nodes that two maps have at a state.
#[derive(Clone, Copy, Debug)]
pub enum Step {
    /// Both are there together.
    Unite,
    /// These bits of the first one's final states are turned.
    Shift(u64),
    /// The first one comes after an event.
    Prefix(Event),
    /// What the two offer is offered.
    Merge,
    /// What the first offers is offered beside the second.
    Finish,
    /// The two are side by side.
    Weave,
}
