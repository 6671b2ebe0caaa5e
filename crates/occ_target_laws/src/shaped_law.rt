ghost use Rattle.occ_target.specs.occ_nform_table.Normal.{Parts};
ghost use Rattle.occ_target.specs.occ_nform_table.Tables.{IsNormal};
ghost use Rattle.occ_target.specs.Inputs.{input_variables};
ghost use Rattle.occ_target.specs.Program.{normal_body};
ghost use Rattle.occ_target_laws.specs.Whole.{AreWhole};
ghost use Rattle.occ_target_laws.specs.Bodies.{IsShapedBody};

/// The body of the normal program of a normal table has normal shape, where each input is offered, and accepted, with all values of its
/// channel or with none.
pub fn programs_of_tables_are_shaped()
    ensures { (t : Parts) → IsNormal t → AreWhole t.params t.rows
        → IsShapedBody (record { params = t.params; inputs = input_variables t.names t.params })
        (normal_body t.names t.params t.rows t.states) }
{}
