ghost use Rattle.std.specs.Prelude.{◌≡◌, IfOk};

use crate::Offers;
use occ_accept::{Antichain, Memory};
use occ_mdd::SetId;
use std::alloc::Global;

/// What a process can do next: it can have ended in an assignment of its set of ends, it can be stable
/// and accept the events of one of its acceptances, and it offers events, each of which leads to a node.
#[derive(Debug, PartialEq, Eq, Hash, Drop)]
pub struct Row {
    /// The assignments in which it can have ended.
    pub ends: SetId,
    /// The least acceptances.
    pub accepts: Antichain,
    /// The offers, strictly increasing by event.
    pub offers: Offers,
}

impl Row {
    /// The same row.
    pub fn copy(&self, alloc: Global) -> Result<Row, Memory>
        ensures { IfOk result (λ r. r ≡ self.now) }
    {
        Ok(Row {
            ends: self.ends,
            accepts: self.accepts.copy(alloc)?,
            offers: self.offers.copy(alloc)?,
        })
    }
}
