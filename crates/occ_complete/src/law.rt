//! That there is a derivation of each normal program.

ghost use Rattle.std.specs.Prelude.{◌≡◌};
ghost use Rattle.occ_complete_states.specs.occ_derive_moves.Steps.{Derivable};
ghost use Rattle.occ_complete_states.specs.occ_nform_table.Behaviours.{Stands};
ghost use Rattle.occ_complete_states.specs.occ_nform_table.Normal.{Parts};
ghost use Rattle.occ_complete_states.specs.occ_nform_table.Tables.{IsNormal};
ghost use Rattle.occ_engine.specs.occ_syntax.declared.scope.Program.{Program};
ghost use Rattle.occ_engine.specs.occ_syntax.View.{tree};
ghost use Rattle.occ_complete_states.specs.occ_target.Program.{normal_body};
ghost use Rattle.occ_engine.specs.occ_usage.Accepted.{IsAccepted};

use crate::derivations_exist;
use occ_complete_states::rows_make_steps;

/// Steps lead from an accepted program to the normal body of each normal table that stands for it.
pub fn normal_programs_are_derivable()
    ensures { (program : Program) (t : Parts) → IsAccepted program → t.params ≡ program.params → IsNormal t
        → Stands program.params t.rows t.states (tree program.body)
        → Derivable program.params (tree program.body) (normal_body t.names t.params t.rows t.states) }
{
    derivations_exist();
    rows_make_steps();
}
