ghost use Rattle.std.specs.Prelude.{◌≡◌, ◌↔◌, true, List};
ghost use Rattle.occ_compare.specs.Programs.{Refines};
ghost use Rattle.occ_refine_laws.specs.Wider.{IsWider};
ghost use Rattle.occ_syntax.specs.Meaning.{fails};
ghost use Rattle.occ_syntax.specs.Same.{SAME};
ghost use Rattle.occ_syntax.specs.Scopes.{Environment, EventSet, IsState, Trace, Values, environment};
ghost use Rattle.occ_syntax.specs.Tree.{Tree};
ghost use Rattle.occ_syntax.specs.Types.{scope_kept, types_kept};
ghost use Rattle.occ_syntax.specs.declared.scope.Kind.{Kind};
ghost use Rattle.occ_syntax.specs.occ_base.declared.names.Name.{Name};

use occ_syntax::empty_if_is_stop;

/// From a state, events that aren't of the environment can be added to each refusal of a well-typed part: on channels that aren't in scope, and
/// with values that are too large for their channel.
pub fn outside_is_refused()
    ensures { (p : Tree) (Γ : Environment) → types_kept p Γ ≡ true → (s : Values) (t : Trace) (X W : EventSet) → IsState Γ s
        → IsWider Γ X W → fails Γ p s t X → fails Γ p s t W }
{
    empty_if_is_stop();
}

/// Two well-typed programs of the same parameters mean the same exactly where each refines the other.
pub fn same_where_each_refines()
    ensures { (params : List (Name × Kind)) (p q : Tree) → scope_kept params ≡ true → types_kept p (environment params) ≡ true
        → types_kept q (environment params) ≡ true → SAME (environment params) p q ↔ (Refines params p q × Refines params q p) }
{}
