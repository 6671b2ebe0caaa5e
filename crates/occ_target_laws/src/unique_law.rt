ghost use Rattle.std.specs.Prelude.{◌≡◌, true};
ghost use Rattle.occ_target.specs.occ_syntax.Same.{SAME};
ghost use Rattle.occ_target.specs.occ_syntax.Scopes.{environment};
ghost use Rattle.occ_target.specs.occ_syntax.Tree.{Tree};
ghost use Rattle.occ_target.specs.occ_syntax.Types.{scope_kept};
ghost use Rattle.occ_target_laws.specs.Bodies.{IsShapedBody};
ghost use Rattle.occ_target_laws.specs.Shapes.{Header};

/// Two bodies of normal shape over the same parameters and with the same declared variables that mean the same are the same tree.
pub fn normal_bodies_are_one()
    ensures { (h : Header) (p q : Tree) → scope_kept h.params ≡ true → IsShapedBody h p → IsShapedBody h q
        → SAME (environment h.params) p q → p ≡ q }
{}
