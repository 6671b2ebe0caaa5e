//! A text that reads as a program with two tables of names stands for one program, whose names have other numbers. Each law is the
//! contract of a function without a body of its own.

ghost use Rattle.std.specs.Prelude.{ℕ, List};
ghost use Rattle.occ_nform.specs.occ_base.Names.{IsDistinct};
ghost use Rattle.occ_nform.specs.occ_base.declared.names.Name.{Name};
ghost use Rattle.occ_renamed.specs.occ_parse.Reading.{IsRead, IsRefused};
ghost use Rattle.occ_renamed.specs.occ_parse.declared.fault.ParseFault.{ParseFault};
ghost use Rattle.occ_renamed.specs.occ_parse.declared.bound.Bound.{Bound};
ghost use Rattle.occ_read_renamed.specs.Readings.{AreRenamed, StandIn};
ghost use Rattle.occ_nform.specs.occ_syntax.Tree.{Tree};
ghost use Rattle.occ_nform.specs.occ_syntax.declared.scope.Kind.{Kind};

use occ_renamed::one_form;

/// Where a text reads as a program with one table and as a program with another one, in which each text of the first stands, the second
/// program is the first one under the numbers that the texts of its names have in the second table.
pub fn readings_are_renamed()
    ensures { (b : Bound) (text : List ℕ) (old between new other : List (List ℕ)) (n m : Name) (ps qs : List (Name × Kind))
        (p q : Tree) (ks ls : List ℕ) → IsDistinct old → IsDistinct between → StandIn old between
        → IsRead b text old new n ps p ks → IsRead b text between other m qs q ls
        → AreRenamed new other n m ps qs p q ks ls }
{
    one_form();
}

/// A text that reads as a program with one table isn't refused with another one, in which each text of the first stands.
pub fn readings_are_not_refused()
    ensures { (b : Bound) (text : List ℕ) (old between new : List (List ℕ)) (n : Name) (ps : List (Name × Kind)) (p : Tree)
        (ks : List ℕ) (fault : ParseFault) → IsDistinct old → IsDistinct between → StandIn old between
        → IsRead b text old new n ps p ks → IsRefused b text between fault → ⊥ }
{
    one_form();
}
