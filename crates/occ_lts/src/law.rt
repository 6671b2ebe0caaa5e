//! A law: the steps of a transition system are those of the rows.

ghost use Rattle.std.specs.Prelude.{ℕ, List, ◌↔◌};
ghost use Rattle.occ_syntax.specs.occ_base.declared.names.Name.{Name};
ghost use Rattle.occ_syntax.specs.declared.scope.Kind.{Kind};
ghost use Rattle.occ_tool_run.specs.occ_nform_table.Lists.{In};
ghost use Rattle.occ_tool_run.specs.occ_nform_table.declared.table.TableRow.{TableRow};
ghost use Rattle.occ_lts.specs.declared.graph.Move.{Move};
ghost use Rattle.occ_lts.specs.Moves.{graph_moves};
ghost use Rattle.occ_lts.specs.Steps.{IsStep};

/// The steps that are listed are exactly those of the rows of the table, which are the steps of its normal program.
pub fn steps_are_those_of_rows()
    ensures { (params : List (Name × Kind)) (rows : List TableRow) (states : List ℕ) (m : Move)
        → In m (graph_moves params rows states) ↔ IsStep params rows states m }
{}
