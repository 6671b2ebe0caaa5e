//! Traces and refusals of every part.

ghost use Rattle.occ_meaning.specs.Bound.{most_events};
ghost use Rattle.occ_meaning.specs.Foundation.{AreOnEnds, AreWithin, Does, IsSubset, IsWidened};
ghost use Rattle.occ_syntax.specs.Meaning.{Outcome, fails};
ghost use Rattle.occ_syntax.specs.Names.{uses_end};
ghost use Rattle.occ_syntax.specs.Same.{HasTrace};
ghost use Rattle.occ_syntax.specs.Scopes.{Environment, EventSet, IsState, Trace, Values, in_interface};
ghost use Rattle.occ_syntax.specs.Tree.{Tree};
ghost use Rattle.occ_syntax.specs.Types.{types_kept};
ghost use Rattle.std.specs.Prelude.{[], length, true, ◌++◌, ◌≡◌, ◌≤◌};

/// What refuses a set refuses each of its subsets. It holds of every part, well typed or not.
pub fn refusals_shrink()
    ensures { (Γ : Environment) (p : Tree) (s : Values) (t : Trace) (X W : EventSet) → IsSubset W X → fails Γ p s t X → fails Γ p s t W }
{}

/// Events on channel ends that a part doesn't use can be added to each of its refusals. The part is well typed in
/// some environment; the law holds in each.
pub fn unused_ends_are_refused()
    ensures { (Θ : Environment) (p : Tree) → types_kept p Θ ≡ true →
        (Γ : Environment) (s : Values) (t : Trace) (X W : EventSet) → IsWidened (uses_end p) X W → fails Γ p s t X →
        fails Γ p s t W }
{}

/// Each event of each trace of a part is on a channel end that the part uses. The part is well typed in some
/// environment; the law holds in each.
pub fn events_are_on_used_ends()
    ensures { (Θ : Environment) (p : Tree) → types_kept p Θ ≡ true →
        (Γ : Environment) (s : Values) (t : Trace) (o : Outcome) → Does Γ p s t o → AreOnEnds (uses_end p) t }
{}

/// From a state, each event of each trace of a well-typed part is of its interface: on a channel in scope, with a
/// value of its width, in a direction that its mark allows.
pub fn events_are_of_the_interface()
    ensures { (Γ : Environment) (p : Tree) → types_kept p Γ ≡ true → (s : Values) (t : Trace) (o : Outcome) → IsState Γ s →
        Does Γ p s t o → AreWithin (in_interface Γ) t }
{}

/// From all values every part has the empty trace, well typed or not: it comes to an end, or to a point at which it
/// is stable.
pub fn every_part_has_the_empty_trace()
    ensures { (Γ : Environment) (p : Tree) (s : Values) → HasTrace Γ p s [] }
{}

/// Each front of a trace is a trace, of every part and from all values.
pub fn traces_are_closed_under_fronts()
    ensures { (Γ : Environment) (p : Tree) (s : Values) (a b : Trace) → HasTrace Γ p s (a ++ b) → HasTrace Γ p s a }
{}

/// No trace of a part is longer than its communications on its longest way.
pub fn traces_are_bounded()
    ensures { (Γ : Environment) (p : Tree) (s : Values) (t : Trace) (o : Outcome) → Does Γ p s t o → length t ≤ most_events p }
{}
