ghost use Rattle.std.specs.Prelude.{◌≡◌, true};
ghost use Rattle.occ_target.specs.occ_nform_table.Behaviours.{Stands};
ghost use Rattle.occ_target.specs.occ_nform_table.Normal.{Parts};
ghost use Rattle.occ_target.specs.occ_nform_table.Tables.{IsNormal};
ghost use Rattle.occ_target.specs.occ_syntax.Same.{SAME};
ghost use Rattle.occ_target.specs.occ_syntax.Scopes.{environment};
ghost use Rattle.occ_target.specs.occ_syntax.Tree.{Tree};
ghost use Rattle.occ_target.specs.occ_syntax.Types.{scope_kept, types_kept};
ghost use Rattle.occ_target.specs.Inputs.{input_variables};
ghost use Rattle.occ_target.specs.Program.{normal_body};
ghost use Rattle.occ_target_laws.specs.Bodies.{IsShapedBody};

/// Where a normal table stands for a program, each body of normal shape that means the same as the program is the body that `target` gives
/// of the table.
pub fn shaped_programs_are_targets()
    ensures { (t : Parts) (p q : Tree) → IsNormal t → scope_kept t.params ≡ true → types_kept p (environment t.params) ≡ true
        → Stands t.params t.rows t.states p → SAME (environment t.params) p q
        → IsShapedBody (record { params = t.params; inputs = input_variables t.names t.params }) q
        → q ≡ normal_body t.names t.params t.rows t.states }
{}
