//! The sides of these laws of ALT name, write and use the same.

ghost use Rattle.occ_renamed.specs.occ_law.Choice.{and_skip};
ghost use Rattle.occ_renamed.specs.occ_law.Lists.{BranchesReordered, all_branches};
ghost use Rattle.occ_renamed.specs.occ_syntax.Tree.{Branches, Tree, alt, no_branch};
ghost use Rattle.occ_renamed.specs.occ_usage.Local.{UsesNoMore};

/// The same branches in another order.
pub fn alt_order_spares()
    ensures { (gs hs : Branches) → BranchesReordered gs hs → UsesNoMore (alt hs) (alt gs) }
{}

/// A process as the one branch of an ALT.
pub fn alt_skip_spares()
    ensures forward { (p : Tree) → UsesNoMore p (alt (and_skip p no_branch)) }
    ensures backward { (p : Tree) → UsesNoMore (alt (and_skip p no_branch)) p }
{}

/// The branches of an ALT in the place of that ALT.
pub fn alt_flat_spares()
    ensures forward { (gs hs ks : Branches)
        → UsesNoMore (alt (all_branches gs (all_branches hs ks))) (alt (all_branches gs (and_skip (alt hs) ks))) }
    ensures backward { (gs hs ks : Branches)
        → UsesNoMore (alt (all_branches gs (and_skip (alt hs) ks))) (alt (all_branches gs (all_branches hs ks))) }
{}
