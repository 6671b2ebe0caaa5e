//! Functions from bit assignments to optional labels, interned: one function has one number.
#![tactic(auto)]

mod both;
mod choose;
mod collect;
mod combine;
mod law;
mod map;
mod maps;

pub use both::Both;
pub use law::maps_have_one_number;
pub use map::MapId;
pub use maps::Maps;
pub use occ_dd::{Call, Label, Memo, SetId, Store};
