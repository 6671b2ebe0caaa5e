//! Laws: edges are offers, labels are shown, and a file has one answer.

ghost use Rattle.std.specs.Prelude.{ℕ, List, ◌≡◌, ◌++◌, ◌∷◌, Option, Some, false};
ghost use Rattle.std.specs.List.{flat_map};
ghost use Rattle.occ_syntax.specs.occ_base.declared.event.Event.{Event};
ghost use Rattle.occ_draw.specs.Answers.{Draws, Told};
ghost use Rattle.occ_draw.specs.Edges.{is_drawn, is_offered};
ghost use Rattle.occ_draw.specs.Strings.{escaped, quoted, shown};

use occ_tool_run::one_script;

/// The edges of a row are exactly its offers: one of them leads to a row with an event in the ranges at it exactly where the row
/// offers that event to that row.
pub fn edges_are_offers()
    ensures { (offers : List (Event × ℕ)) (e : Event) (n : ℕ) → is_drawn offers e n ≡ is_offered offers e n }
{}

/// A label is shown as it was given: behind its opening quote it is read whole, up to its closing quote, whatever stands behind.
pub fn a_label_is_shown()
    ensures { (label rest : List ℕ) → shown false (flat_map escaped label ++ 34 ∷ rest) ≡ Some (label, rest) }
{}

/// A file has one answer.
pub fn one_answer()
    ensures { (file : Option (List ℕ)) (a b : Told) → Draws file a → Draws file b → a ≡ b }
{
    one_script();
}
