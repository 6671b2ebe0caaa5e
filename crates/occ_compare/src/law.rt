ghost use Rattle.std.specs.Prelude.{◌≡◌, List, Option};
ghost use Rattle.occ_syntax.specs.occ_base.declared.names.Name.{Name};
ghost use Rattle.occ_syntax.specs.declared.scope.Kind.{Kind};
ghost use Rattle.occ_syntax.specs.Tree.{Tree};
ghost use Rattle.occ_behaviour.specs.declared.behaviour.Behaviour.{Behaviour};
ghost use Rattle.occ_compare.specs.declared.refined.Refined.{Refined};
ghost use Rattle.occ_compare.specs.Programs.{IsRefinement, IsDeadlockAnswer};

/// Whether one program refines another has one answer, with one behaviour where it doesn't.
pub fn one_refinement()
    ensures { (ps : List (Name × Kind)) (p q : Tree) (x y : Refined) → IsRefinement ps p q x → IsRefinement ps p q y → x ≡ y }
{}

/// Whether a program can be stuck has one answer, with one behaviour where it can.
pub fn one_deadlock()
    ensures { (ps : List (Name × Kind)) (p : Tree) (x y : Option Behaviour) → IsDeadlockAnswer ps p x → IsDeadlockAnswer ps p y → x ≡ y }
{}
