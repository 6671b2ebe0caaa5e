use occ_mdd::MapId;
use occ_syntax::Scope;

/// The behaviours of a program from each of its initial states.
#[derive(Debug, Drop)]
pub struct Root {
    /// The parameters, whose variables are the bits of the states.
    pub params: Scope,
    /// The map from initial states to nodes.
    pub states: MapId,
}
