//! A process as it is normalised: PARs in one another are one PAR, its parts in an order in which channels close early, and parts that
//! don't communicate stand in front of it.
#![tactic(auto)]

mod apart;
mod declared;
mod flat;
mod links;
mod lists;
mod names;
mod order;
mod sequence;
mod split;
mod straight;
mod walk;

pub use occ_names::{RenameFault, rename, substitute};
pub use sequence::sequenced;
pub use straight::is_straight;
pub use walk::flattened;
