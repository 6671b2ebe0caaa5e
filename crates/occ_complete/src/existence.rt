//! Laws are enough: whatever two programs mean the same, moves by laws lead both to one. Here are the laws; there is no code.

ghost use Rattle.std.specs.Prelude.{◌≡◌};
ghost use Rattle.occ_complete.specs.Meeting.{AreMarked, Meet};
ghost use Rattle.occ_complete_states.specs.Leads.{Leads};
ghost use Rattle.occ_complete_states.specs.occ_nform_table.Behaviours.{Stands};
ghost use Rattle.occ_complete_states.specs.occ_nform_table.Normal.{Parts};
ghost use Rattle.occ_complete_states.specs.occ_nform_table.Tables.{IsNormal};
ghost use Rattle.occ_engine.specs.occ_syntax.declared.scope.Program.{Program};
ghost use Rattle.occ_engine.specs.occ_syntax.Same.{SAME};
ghost use Rattle.occ_engine.specs.occ_syntax.Scopes.{environment};
ghost use Rattle.occ_engine.specs.occ_syntax.View.{tree};
ghost use Rattle.occ_complete_states.specs.occ_target.Program.{normal_body};
ghost use Rattle.occ_engine.specs.occ_usage.Accepted.{IsAccepted};

use occ_engine::laws_are_sound;

/// The laws are complete: two accepted programs with the same parameters that mean the same lead to one body, by moves by laws of the
/// table. Each channel among the parameters has a direction, as in every program that was read.
pub fn laws_are_complete()
    ensures { (one two : Program) → IsAccepted one → IsAccepted two → one.params ≡ two.params → AreMarked one.params
        → SAME (environment one.params) (tree one.body) (tree two.body) → Meet one.params (tree one.body) (tree two.body) }
{
    laws_are_sound();
}

/// A derivation exists: an accepted program leads, by moves by laws of the table, to the normal body of each normal table that stands for
/// it.
pub fn derivations_exist()
    ensures { (program : Program) (t : Parts) → IsAccepted program → t.params ≡ program.params → IsNormal t
        → Stands program.params t.rows t.states (tree program.body)
        → Leads program.params (tree program.body) (normal_body t.names t.params t.rows t.states) }
{
    laws_are_sound();
}
