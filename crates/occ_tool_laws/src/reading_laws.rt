//! A text that reads as a program with one table of names reads as one with each other table. There is no code.

ghost use Rattle.std.specs.Prelude.{ℕ, List};
ghost use Rattle.occ_tool_laws.specs.Reads.{Reads};
ghost use Rattle.occ_witness.specs.occ_base.Names.{IsDistinct};
ghost use Rattle.occ_witness.specs.occ_base.declared.names.Name.{Name};
ghost use Rattle.occ_witness.specs.occ_parse.Reading.{IsRead};
ghost use Rattle.occ_witness.specs.occ_parse.declared.bound.Bound.{Bound};
ghost use Rattle.occ_witness.specs.occ_read_renamed.Readings.{StandIn};
ghost use Rattle.occ_witness.specs.occ_syntax.Tree.{Tree};
ghost use Rattle.occ_witness.specs.occ_syntax.declared.scope.Kind.{Kind};

use occ_witness::readings_are_not_refused;

/// A text that reads as a program with one table reads as one with another table too, where no text stands twice in either and each text of
/// the first stands in the second. So what reads with an empty table reads with each.
pub fn texts_read_with_each_table()
    ensures { (b : Bound) (text : List ℕ) (old between new : List (List ℕ)) (n : Name) (ps : List (Name × Kind)) (p : Tree)
        (ks : List ℕ) → IsDistinct old → IsDistinct between → StandIn old between
        → IsRead b text old new n ps p ks → Reads b text between }
{
    readings_are_not_refused();
}
