//! A settled ALT leads to a node, in which each event stands once. Here is the law; there is no code.

ghost use Rattle.std.specs.Prelude.{ℕ, List};
ghost use Rattle.std.specs.List.{AllByRecursion};
ghost use Rattle.occ_complete_states.specs.Configured.{IsSettledBranch};
ghost use Rattle.occ_complete_states.specs.Headers.{IsHeader};
ghost use Rattle.occ_complete_states.specs.States.{scope_of};
ghost use Rattle.occ_complete_states.specs.Ways.{IsUnified};
ghost use Rattle.occ_complete_states.specs.occ_nform_table.Lines.{HaveWidths};
ghost use Rattle.occ_engine.specs.occ_syntax.Scopes.{environment};
ghost use Rattle.occ_engine.specs.occ_syntax.Tree.{Tree, Waiting, alt};
ghost use Rattle.occ_engine.specs.occ_syntax.Usage.{Keeps};
ghost use Rattle.occ_complete_states.specs.occ_target.Rows.{guarded};
ghost use Rattle.occ_complete_states.specs.occ_target_laws.Shapes.{Header};

/// An ALT of events, acceptances and ends leads to the process of a node: each event stands once in the ALT itself, and goes on as any of
/// some configurations; acceptances have these same branches, none has all of another, and all stand in the order of normal programs.
pub fn settled_alternatives_unify()
    ensures { (h : Header) → IsHeader h → HaveWidths h.params → (limit : ℕ) (bs : List (Waiting × Tree))
        → AllByRecursion (IsSettledBranch h limit) bs → Keeps (environment (scope_of h)) (alt (guarded bs)) → IsUnified h limit (alt (guarded bs)) }
{}
