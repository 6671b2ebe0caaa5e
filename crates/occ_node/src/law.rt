ghost use Rattle.occ_node.specs.Canonical.{IsCanonical, IsRecovered};
ghost use Rattle.occ_node.specs.World.{IsNode};
ghost use Rattle.occ_node.specs.declared.node.NodeId.{NodeId};
ghost use Rattle.occ_node.specs.declared.world.World.{World};

/// Two nodes of one world are equal exactly where their failures and ends are equal.
pub fn behaviours_have_one_number()
    ensures { (w : World) → IsCanonical w }
{}

/// The offers and the least acceptances of a node are recovered from its behaviours.
pub fn rows_are_recovered()
    ensures { (w : World) (a : NodeId) → IsNode w a → IsRecovered w a }
{}
