ghost use Rattle.std.specs.Prelude.{◌≡◌, [], ◌∷◌, ◌++◌, true, OnOk, OnErr, IfOk};
ghost use Rattle.occ_accept.specs.Order.{strict};
ghost use Rattle.occ_accept.specs.Accept.{in_set};
ghost use Rattle.occ_accept.specs.occ_base.declared.event.Event.{Event};
ghost use Rattle.occ_node.specs.Offers.{is_offered, next_in, offer_cmp};

use crate::NodeId;
use crate::find::find;
use occ_accept::{AcceptSet, Event, Memory};
use std::alloc::Global;
use std::marker::Model;

/// The events that a row offers, each with the node that it leads to, in the order of the events.
#[derive(Debug, Drop)]
pub struct Offers {
    offers: Vec<(Event, NodeId)>,
}

impl Model for Offers {
    ghost use Rattle.std.specs.Prelude.{List};
    ghost use Rattle.occ_accept.specs.occ_base.declared.event.Event.{Event};
    ghost use Rattle.occ_node.specs.declared.node.NodeId.{NodeId};

    ghost Value = { List (Event × NodeId) };

    ghost view = { λ list. list.offers.items };
}

impl Offers {
    /// No offers. It takes no memory.
    pub fn new(alloc: Global) -> Offers
        ensures { result ≡ [] }
    {
        Offers {
            offers: Vec::new(alloc),
        }
    }

    /// Adds an offer at the end. Where memory runs out, the list is as before.
    pub fn push(&mut self, offer: (Event, NodeId)) -> Result<(), Memory>
        ensures ok { OnOk result (self.new ≡ self.old ++ offer ∷ []) }
        ensures err { OnErr result (self.new ≡ self.old) }
    {
        self.offers.push(offer)?;
        Ok(())
    }

    /// The offers in order. It takes no memory.
    pub fn items(&self) -> &[(Event, NodeId)]
        ensures { result.now ≡ self.now }
    {
        self.offers.as_slice()
    }

    /// The list of the same offers.
    pub fn copy(&self, alloc: Global) -> Result<Offers, Memory>
        ensures { IfOk result (λ r. r ≡ self.now) }
    {
        Ok(Offers {
            offers: Vec::from_slice(alloc, self.offers.as_slice())?,
        })
    }

    /// The node that is offered at an event, where the offers increase strictly. It takes no memory.
    pub fn find(&self, event: Event) -> Option<NodeId>
        requires { strict offer_cmp self.now ≡ true }
        ensures { result ≡ next_in self.now event }
    {
        find(self.items(), event)
    }

    /// The set of the events that are offered.
    pub fn events(&self, alloc: Global) -> Result<AcceptSet, Memory>
        ensures { IfOk result (λ r. (e : Event) → in_set r e ≡ is_offered self.now e) }
    {
        let mut events = Vec::new(alloc);
        for offer in self.items() {
            events.push(offer.0)?;
        }
        Ok(AcceptSet::gather(events))
    }
}
