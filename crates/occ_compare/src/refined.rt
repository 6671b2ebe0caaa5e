use occ_behaviour::Behaviour;

/// Whether a second process does no more than a first one allows.
#[derive(Debug, Drop)]
pub enum Refined {
    /// All its failures and ends are the first one's, from every state.
    Yes,
    /// This behaviour is the second one's, and not the first one's.
    No(Behaviour),
}
