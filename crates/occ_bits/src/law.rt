ghost use Rattle.std.specs.Prelude.{List, ℕ};
ghost use Rattle.occ_dd.specs.occ_base.declared.names.Name.{Name};
ghost use Rattle.occ_dd.specs.occ_base.declared.width.Width.{Width};
ghost use Rattle.occ_bits.specs.Layout.{AreStates, IsLayout};

/// The assignments of a layout's bits are the states of its variables, each state once.
pub fn assignments_are_states()
    ensures { (entries : List (Name × Width × ℕ)) → IsLayout entries → AreStates entries }
{}
