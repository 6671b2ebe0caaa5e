//! What small programs do, and don't do.

ghost use Rattle.std.specs.Prelude.{[], ◌∷◌, ◌≡◌};
ghost use Rattle.occ_law.specs.occ_syntax.Eval.{eval};
ghost use Rattle.occ_law.specs.occ_syntax.Meaning.{ends, fails};
ghost use Rattle.occ_law.specs.occ_syntax.Same.{SAME};
ghost use Rattle.occ_law.specs.occ_syntax.Scopes.{EventSet, Trace, Values, among};
ghost use Rattle.occ_law.specs.occ_syntax.Tree.{stop};
ghost use Rattle.occ_examples.specs.Programs.{beside_ready, c, d, exchange, here, hidden_output, holding, input_of, inside_chooses, one_after_another, output_of, outside_chooses, swapping, x_and_one};
ghost use Rattle.occ_examples.specs.Sayings.{CanEnd};

/// Where a word of two bits holds 3, one more is 0.
pub fn sums_wrap_round()
    ensures { eval here x_and_one (holding 3 0) ≡ 0 }
{}

/// From x = 1 and y = 2, `x, y := y, x` ends with x = 2 and y = 1, and `SEQ(x := y, y := x)` doesn't.
pub fn an_exchange_is_no_sequence()
    ensures { CanEnd exchange (holding 1 2) [] 2 1 × (CanEnd one_after_another (holding 1 2) [] 2 1 → ⊥) }
{}

/// Two parts of a PAR that give each other their values on hidden channels have exchanged them at the end, and nobody saw it.
pub fn parts_exchange_values()
    ensures { CanEnd swapping (holding 1 2) [] 2 1 }
{}

/// An output on a channel that nobody else has means the same as STOP: it refuses everything, and never ends.
pub fn a_hidden_output_stops()
    ensures { SAME here hidden_output stop }
{}

/// `ALT(c ? x SKIP, TRUE & SKIP SKIP)` can end at once, and can take an input first. It has no refusal before any event.
pub fn a_ready_guard_may_be_passed_over()
    ensures { CanEnd beside_ready (holding 0 0) [] 0 0 × (CanEnd beside_ready (holding 0 0) (input_of c 3 ∷ []) 3 0
        × ((X : EventSet) → fails here beside_ready (holding 0 0) [] X → ⊥)) }
{}

/// A program that chooses by itself between two outputs can refuse each of them, but not both.
pub fn who_chooses_inside_refuses()
    ensures { fails here inside_chooses (holding 0 0) [] (among (output_of c 1 ∷ []))
        × (fails here inside_chooses (holding 0 0) [] (among (output_of d 1 ∷ []))
        × (fails here inside_chooses (holding 0 0) [] (among (output_of c 1 ∷ output_of d 1 ∷ [])) → ⊥)) }
{}

/// A program that leaves the choice to the outside can refuse neither of the two.
pub fn who_chooses_outside_refuses_neither()
    ensures { (fails here outside_chooses (holding 0 0) [] (among (output_of c 1 ∷ [])) → ⊥)
        × (fails here outside_chooses (holding 0 0) [] (among (output_of d 1 ∷ [])) → ⊥) }
{}
