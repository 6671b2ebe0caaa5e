//! Orders and expansions have one outcome: there are no two answers to a transformation.

ghost use Rattle.std.specs.Prelude.{ℕ, ◌≡◌, List, None};
ghost use Rattle.occ_engine.specs.occ_base.declared.names.Name.{Name};
ghost use Rattle.occ_engine.specs.occ_replay_rules.Expansion.{IsBlocked, IsExpanded, IsNoPar};
ghost use Rattle.occ_engine.specs.occ_replay_rules.Moves.{Move};
ghost use Rattle.occ_engine.specs.occ_replay_rules.Orders.{Follows, Lack, Order, Stops};
ghost use Rattle.occ_engine.specs.occ_meaning.Context.{part_at};
ghost use Rattle.occ_engine.specs.occ_syntax.Tree.{Tree};
ghost use Rattle.occ_engine.specs.occ_syntax.declared.scope.Kind.{Kind};

/// Orders are followed by the same moves, to the same process.
pub fn followed_orders_have_one_outcome()
    ensures { (S : List (Name × Kind)) (p q r : Tree) (orders : List Order) (moves others : List Move) → Follows S p orders moves q
        → Follows S p orders others r → (moves ≡ others) × (q ≡ r) }
{}

/// Orders that are followed stop nowhere.
pub fn orders_follow_or_stop()
    ensures { (S : List (Name × Kind)) (p q : Tree) (orders : List Order) (moves : List Move) (number : ℕ) (lack : Lack)
        → Follows S p orders moves q
        → Stops S p orders number lack → ⊥ }
{}

/// Orders stop at one of them, for one lack.
pub fn orders_stop_once()
    ensures { (S : List (Name × Kind)) (p : Tree) (orders : List Order) (n m : ℕ) (a b : Lack) → Stops S p orders n a → Stops S p orders m b
        → (n ≡ m) × (a ≡ b) }
{}

/// A PAR is expanded by the same moves, to the same process.
pub fn expansions_have_one_outcome()
    ensures { (S : List (Name × Kind)) (p q r : Tree) (path : List ℕ) (moves others : List Move) → IsExpanded S p path moves q
        → IsExpanded S p path others r → (moves ≡ others) × (q ≡ r) }
{}

/// Where a PAR is expanded, there is a part at the path, this is a PAR of two parts, and no wish on the way is refused.
pub fn expansions_have_no_fault()
    ensures { (S : List (Name × Kind)) (p q : Tree) (path : List ℕ) (moves : List Move) → IsExpanded S p path moves q
        → (part_at path p ≡ None → ⊥) × (IsNoPar p path → ⊥) × (IsBlocked S p path → ⊥) }
{}

/// There is one cause why an expansion can't be: no part at the path, no PAR of two parts there, or a wish that is refused.
pub fn expansions_have_one_fault()
    ensures { (S : List (Name × Kind)) (p : Tree) (path : List ℕ)
        → (part_at path p ≡ None → IsNoPar p path → ⊥) × (part_at path p ≡ None → IsBlocked S p path → ⊥)
        × (IsNoPar p path → IsBlocked S p path → ⊥) }
{}
