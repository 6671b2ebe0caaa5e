ghost use Rattle.std.specs.Prelude.{◌&&◌, ◌++◌};
ghost use Rattle.std.specs.Cmp.{and_per, and_equiv, on_per, on_equiv};
ghost use Rattle.std.specs.Cmp.Lexicographic.{pointwise, lists_per, lists_equiv};
ghost use Rattle.std.specs.Hash as fed;
ghost use Rattle.std.specs.Hash.{items_Alike, and-Alike, on_Alike};
ghost use Rattle.occ_accept.specs.occ_base.contracts.event.EventPartialEq.TheImpl.{ghosts as event_eq};
ghost use Rattle.occ_accept.specs.occ_base.contracts.event.EventPartialEq.TheImpl.Laws.{laws-law as event_per};
ghost use Rattle.occ_accept.specs.occ_base.contracts.event.EventEq.TheImpl.Laws.{laws-law as event_equiv};
ghost use Rattle.occ_accept.specs.occ_base.contracts.event.EventHash.TheImpl.{ghosts as event_hash};
ghost use Rattle.occ_accept.specs.occ_base.contracts.event.EventHash.TheImpl.Laws.{respects_eq-law as event_alike};
ghost use Rattle.occ_node.specs.contracts.node.NodeIdPartialEq.TheImpl.{ghosts as node_eq};
ghost use Rattle.occ_node.specs.contracts.node.NodeIdPartialEq.TheImpl.Laws.{laws-law as node_per};
ghost use Rattle.occ_node.specs.contracts.node.NodeIdEq.TheImpl.Laws.{laws-law as node_equiv};
ghost use Rattle.occ_node.specs.contracts.node.NodeIdHash.TheImpl.{ghosts as node_hash};
ghost use Rattle.occ_node.specs.contracts.node.NodeIdHash.TheImpl.Laws.{respects_eq-law as node_alike};

use crate::Offers;
use std::hash::{Hash, Hasher};

impl PartialEq for Offers {
    ghost eq = { λ x y. pointwise (λ o p. event_eq.eq o.0 p.0 && node_eq.eq o.1 p.1) x y };

    ghost laws = { lists_per (and_per (on_per (λ o. o.0) event_per) (on_per (λ o. o.1) node_per)) };

    fn eq(&self, other: &Self) -> bool {
        self.items() == other.items()
    }
}

impl Eq for Offers {
    ghost laws = { lists_equiv (and_equiv (on_equiv (λ o. o.0) event_equiv) (on_equiv (λ o. o.1) node_equiv)) };
}

impl Hash for Offers {
    ghost hash_input = { λ v. fed.slice (λ o. event_hash.hash_input o.0 ++ node_hash.hash_input o.1) v };

    ghost respects_eq = { (items_Alike (and-Alike (on_Alike (λ o. o.0) (record { fed = event_alike })) (on_Alike (λ o. o.1) (record { fed = node_alike })))).fed };

    fn hash<H: Hasher>(&self, state: &mut H) {
        self.items().hash(state);
    }
}
