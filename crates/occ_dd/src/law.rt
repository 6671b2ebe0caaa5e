ghost use Rattle.occ_dd.specs.Store.{IsCanonical};
ghost use Rattle.occ_dd.specs.declared.store.Store.{Store};

/// Two numbers of one store are equal exactly where the sets are equal (Bryant 1986).
pub fn sets_have_one_number()
    ensures { (s : Store) → IsCanonical s }
{}
