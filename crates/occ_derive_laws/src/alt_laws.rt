//! The laws of ALT hold where the side that is there keeps names, types, directions and usage.

ghost use Rattle.std.specs.Prelude.{◌≡◌, List, false, true};
ghost use Rattle.occ_renamed.specs.occ_base.declared.names.Name.{Name};
ghost use Rattle.occ_renamed.specs.occ_law.Choice.{and_skip, are_events, are_plain_events, has_skip, is_event};
ghost use Rattle.occ_renamed.specs.occ_law.Lists.{BranchesReordered, all_branches};
ghost use Rattle.occ_renamed.specs.occ_law.RuleTable.{LAW};
ghost use Rattle.occ_renamed.specs.occ_syntax.declared.scope.Kind.{Kind};
ghost use Rattle.occ_renamed.specs.occ_syntax.Scopes.{environment};
ghost use Rattle.occ_renamed.specs.occ_syntax.Tree.{Branches, Exp, Tree, Waiting, alt, and_branch, no_branch, stop, truth};
ghost use Rattle.occ_renamed.specs.occ_syntax.Usage.{Keeps};

/// ALT() = STOP.
pub fn alt_none_holds()
    ensures { (S : List (Name × Kind)) → LAW 26 S (alt no_branch) stop }
{}

/// The same branches in another order.
pub fn alt_order_holds()
    ensures { (S : List (Name × Kind)) (gs hs : Branches) → BranchesReordered gs hs → Keeps (environment S) (alt gs)
        → LAW 27 S (alt gs) (alt hs) }
{}

/// A branch whose condition is the constant FALSE goes.
pub fn alt_false_holds()
    ensures { (S : List (Name × Kind)) (gs hs : Branches) (w : Waiting) (p : Tree)
        → let left = alt (all_branches gs (and_branch (truth false) w p hs)) in Keeps (environment S) left
        → LAW 28 S left (alt (all_branches gs hs)) }
{}

/// The later one of two equal branches goes, or comes.
pub fn alt_twice_holds()
    ensures forward { (S : List (Name × Kind)) (gs hs ks : Branches) (b : Exp) (w : Waiting) (p : Tree)
        → let left = alt (all_branches gs (and_branch b w p (all_branches hs (and_branch b w p ks)))) in Keeps (environment S) left
        → LAW 29 S left (alt (all_branches gs (and_branch b w p (all_branches hs ks)))) }
    ensures backward { (S : List (Name × Kind)) (gs hs ks : Branches) (b : Exp) (w : Waiting) (p : Tree)
        → let right = alt (all_branches gs (and_branch b w p (all_branches hs ks))) in Keeps (environment S) right
        → LAW 29 S (alt (all_branches gs (and_branch b w p (all_branches hs (and_branch b w p ks))))) right }
{}

/// A process as the one branch of an ALT, to which it goes on at once.
pub fn alt_skip_holds()
    ensures forward { (S : List (Name × Kind)) (p : Tree) → Keeps (environment S) (alt (and_skip p no_branch))
        → LAW 30 S (alt (and_skip p no_branch)) p }
    ensures backward { (S : List (Name × Kind)) (p : Tree) → Keeps (environment S) p → LAW 30 S (alt (and_skip p no_branch)) p }
{}

/// An ALT that goes on at once in some branch, and the branches of the ALT in which it stands.
pub fn alt_flat_holds()
    ensures forward { (S : List (Name × Kind)) (gs hs ks : Branches) → has_skip hs ≡ true
        → Keeps (environment S) (alt (all_branches gs (and_skip (alt hs) ks)))
        → LAW 32 S (alt (all_branches gs (and_skip (alt hs) ks))) (alt (all_branches gs (all_branches hs ks))) }
    ensures backward { (S : List (Name × Kind)) (gs hs ks : Branches) → has_skip hs ≡ true
        → Keeps (environment S) (alt (all_branches gs (all_branches hs ks)))
        → LAW 32 S (alt (all_branches gs (and_skip (alt hs) ks))) (alt (all_branches gs (all_branches hs ks))) }
{}

/// A branch goes into the acceptance behind it, which begins with the same guard, or comes out of it.
pub fn alt_split_holds()
    ensures forward { (S : List (Name × Kind)) (gs hs ks : Branches) (g : Waiting) (p q : Tree) → is_event g ≡ true
        → let inner = and_branch (truth true) g q hs in
        let left = alt (all_branches gs (and_branch (truth true) g p (and_skip (alt inner) ks))) in
        Keeps (environment S) left → LAW 33 S left (alt (all_branches gs (and_skip (alt (and_branch (truth true) g p inner)) ks))) }
    ensures backward { (S : List (Name × Kind)) (gs hs ks : Branches) (g : Waiting) (p q : Tree) → is_event g ≡ true
        → let inner = and_branch (truth true) g q hs in
        let right = alt (all_branches gs (and_skip (alt (and_branch (truth true) g p inner)) ks)) in
        Keeps (environment S) right → LAW 33 S (alt (all_branches gs (and_branch (truth true) g p (and_skip (alt inner) ks)))) right }
{}

/// One branch of two that have one guard.
pub fn alt_same_holds()
    ensures { (S : List (Name × Kind)) (gs hs ks : Branches) (b : Exp) (g : Waiting) (p q : Tree) → is_event g ≡ true
        → let left = alt (all_branches gs (and_branch b g p (all_branches hs (and_branch b g q ks)))) in
        let both = alt (and_skip p (and_skip q no_branch)) in
        Keeps (environment S) left → LAW 34 S left (alt (all_branches gs (and_branch b g both (all_branches hs ks)))) }
{}

/// An ALT whose first branches wait, and the ALT of these branches and of an acceptance of all.
pub fn alt_slide_holds()
    ensures { (S : List (Name × Kind)) (gs hs : Branches) → are_events gs ≡ true
        → let right = alt (all_branches gs hs) in Keeps (environment S) right
        → LAW 35 S (alt (all_branches gs (and_skip right no_branch))) right }
{}

/// Of two acceptances, the second with all of the first, the first and what the second has beyond it.
pub fn alt_least_holds()
    ensures { (S : List (Name × Kind)) (gs hs : Branches) → are_plain_events gs ≡ true → are_plain_events hs ≡ true
        → let left = alt (and_skip (alt gs) (and_skip (alt (all_branches gs hs)) no_branch)) in Keeps (environment S) left
        → LAW 36 S left (alt (all_branches hs (and_skip (alt gs) no_branch))) }
{}
