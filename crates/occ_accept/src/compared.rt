ghost use Rattle.std.specs.Cmp.Lexicographic.{pointwise, lists_per, lists_equiv};
ghost use Rattle.std.specs.Hash as fed;
ghost use Rattle.std.specs.Hash.{items_Alike};
ghost use Rattle.occ_base.specs.contracts.event.EventPartialEq.TheImpl.{ghosts as event_eq};
ghost use Rattle.occ_base.specs.contracts.event.EventPartialEq.TheImpl.Laws.{laws-law as event_per};
ghost use Rattle.occ_base.specs.contracts.event.EventEq.TheImpl.Laws.{laws-law as event_equiv};
ghost use Rattle.occ_base.specs.contracts.event.EventHash.TheImpl.{ghosts as event_hash};
ghost use Rattle.occ_base.specs.contracts.event.EventHash.TheImpl.Laws.{respects_eq-law as event_alike};

use crate::{AcceptSet, Antichain};
use std::hash::{Hash, Hasher};

impl PartialEq for AcceptSet {
    ghost eq = { λ x y. pointwise event_eq.eq x y };

    ghost laws = { lists_per event_per };

    fn eq(&self, other: &Self) -> bool {
        self.items() == other.items()
    }
}

impl Eq for AcceptSet {
    ghost laws = { lists_equiv event_equiv };
}

impl Hash for AcceptSet {
    ghost hash_input = { λ v. fed.slice event_hash.hash_input v };

    ghost respects_eq = { (items_Alike (record { fed = event_alike })).fed };

    fn hash<H: Hasher>(&self, state: &mut H) {
        self.items().hash(state);
    }
}

impl PartialEq for Antichain {
    ghost eq = { λ x y. pointwise (pointwise event_eq.eq) x y };

    ghost laws = { lists_per (lists_per event_per) };

    fn eq(&self, other: &Self) -> bool {
        self.items() == other.items()
    }
}

impl Eq for Antichain {
    ghost laws = { lists_equiv (lists_equiv event_equiv) };
}

impl Hash for Antichain {
    ghost hash_input = { λ v. fed.slice (fed.slice event_hash.hash_input) v };

    ghost respects_eq = { (items_Alike (items_Alike (record { fed = event_alike }))).fed };

    fn hash<H: Hasher>(&self, state: &mut H) {
        self.items().hash(state);
    }
}
