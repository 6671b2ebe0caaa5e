ghost use Rattle.std.specs.Prelude.{◌≡◌, ◌↔◌, List};
ghost use Rattle.occ_syntax.specs.occ_base.declared.names.Name.{Name};
ghost use Rattle.occ_syntax.specs.declared.scope.Kind.{Kind};
ghost use Rattle.occ_syntax.specs.Tree.{Tree};
ghost use Rattle.occ_norm.specs.occ_behaviour.declared.behaviour.Verdict.{Verdict};
ghost use Rattle.occ_norm.specs.occ_behaviour.declared.behaviour.Verdict.TheVariants.{Same};
ghost use Rattle.occ_norm.specs.occ_compare.declared.refined.Refined.{Refined};
ghost use Rattle.occ_norm.specs.occ_compare.declared.refined.Refined.TheVariants.{Yes};
ghost use Rattle.occ_norm.specs.occ_compare.Programs.{IsRefinement};
ghost use Rattle.occ_refine.specs.Verdict.{IsVerdictOf};

/// Two programs have one verdict.
pub fn one_verdict()
    ensures { (params : List (Name × Kind)) (p q : Tree) (v w : Verdict) → IsVerdictOf params p q v → IsVerdictOf params p q w → v ≡ w }
{}

/// Each of two programs refines the other exactly where the verdict is that they mean the same.
pub fn refined_both_ways()
    ensures { (params : List (Name × Kind)) (p q : Tree) (x y : Refined) (v : Verdict) → IsVerdictOf params p q v → IsRefinement params p q x → IsRefinement params q p y → ((x ≡ Yes) × (y ≡ Yes)) ↔ (v ≡ Same) }
{}
