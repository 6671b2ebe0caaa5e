ghost use Rattle.std.specs.Prelude.{◌≡◌, ℕ, List};
ghost use Rattle.occ_parse_forms.specs.occ_lex.declared.token.Line.{Line};
ghost use Rattle.occ_parse_rules.specs.Forest.{Forest};
ghost use Rattle.occ_parse_part.specs.Parts.{IsNoPart, IsPart};
ghost use Rattle.occ_parse.specs.declared.fault.ParseFault.{ParseFault};

use occ_parse_forms::one_form;

/// Lines read as one part and no other, or they have one first fault, and never both.
pub fn one_reading_of_a_part()
    ensures part { (text : List ℕ) (old : List (List ℕ)) (lines : List Line) (f g : Forest) → IsPart text old lines f → IsPart text old lines g → f ≡ g }
    ensures fault { (text : List ℕ) (old : List (List ℕ)) (lines : List Line) (f g : ParseFault) → IsNoPart text old lines f → IsNoPart text old lines g → f ≡ g }
    ensures either { (text : List ℕ) (old : List (List ℕ)) (lines : List Line) (f : Forest) (g : ParseFault) → IsPart text old lines f → IsNoPart text old lines g → ⊥ }
{
    one_form();
}
