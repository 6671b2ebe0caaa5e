ghost use Rattle.std.specs.Prelude.{◌≡◌, ℕ, List};
ghost use Rattle.occ_syntax.specs.occ_base.declared.names.Name.{Name};
ghost use Rattle.occ_syntax.specs.declared.scope.Kind.{Kind};
ghost use Rattle.occ_syntax.specs.Tree.{Tree};
ghost use Rattle.occ_parse.specs.declared.bound.Bound.{Bound};
ghost use Rattle.occ_parse.specs.declared.fault.ParseFault.{ParseFault};
ghost use Rattle.occ_parse.specs.Reading.{IsRead, IsRefused, SameReading};

use occ_parse_rules::one_form;

/// A text has one reading with these names in the table: it is refused for one fault, or reads as one program with one table
/// of names behind it, and not both.
pub fn one_reading()
    ensures fault { (b : Bound) (text : List ℕ) (old : List (List ℕ)) (f g : ParseFault) → IsRefused b text old f → IsRefused b text old g → f ≡ g }
    ensures program { (b : Bound) (text : List ℕ) (old first second : List (List ℕ)) (n m : Name) (ps qs : List (Name × Kind)) (p q : Tree) (ks ls : List ℕ)
        → IsRead b text old first n ps p ks → IsRead b text old second m qs q ls → SameReading first second n m ps qs p q ks ls }
    ensures apart { (b : Bound) (text : List ℕ) (old new : List (List ℕ)) (n : Name) (ps : List (Name × Kind)) (p : Tree) (ks : List ℕ) (f : ParseFault)
        → IsRead b text old new n ps p ks → IsRefused b text old f → ⊥ }
{
    one_form();
}
