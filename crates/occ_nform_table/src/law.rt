ghost use Rattle.std.specs.Prelude.{◌≡◌};
ghost use Rattle.occ_nform_table.specs.Normal.{Parts};
ghost use Rattle.occ_nform_table.specs.Tables.{IsNormal};
ghost use Rattle.occ_nform_table.specs.Alike.{HaveSameBehaviours};

/// Two normal tables of one interface whose states have the same behaviours are the same table.
pub fn one_normal_table()
    ensures { (a b : Parts) → a.names ≡ b.names → a.params ≡ b.params → IsNormal a → IsNormal b → HaveSameBehaviours a b → (a.rows ≡ b.rows) × (a.states ≡ b.states) }
{}
