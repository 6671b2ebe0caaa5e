//! The names of what the engine makes: each is one of the table of names that the program and the orders were read with.

ghost use Rattle.std.specs.Prelude.{ℕ, ◌<◌, ◌≡◌, ◌≤◌, Bool, List, length, true};
ghost use Rattle.occ_engine.specs.occ_base.declared.names.Name.{Name};
ghost use Rattle.occ_engine.specs.Moved.{orders_of};
ghost use Rattle.occ_engine_known.specs.Given.{AllGiveBelow};
ghost use Rattle.occ_engine_known.specs.Known.{IsKnownPart, LeadToKnown, NamesAreBelow};
ghost use Rattle.occ_engine.specs.occ_replay_rules.Expansion.{IsExpanded};
ghost use Rattle.occ_engine.specs.occ_replay_rules.Moves.{Move};
ghost use Rattle.occ_engine.specs.occ_replay_rules.Orders.{Follows};
ghost use Rattle.occ_engine.specs.occ_law.RuleTable.{IsDirect};
ghost use Rattle.occ_engine.specs.occ_parse.Known.{declares};
ghost use Rattle.occ_engine.specs.occ_parse.declared.bound.Bound.{Bound};
ghost use Rattle.occ_engine.specs.occ_parse.Reading.{IsRead};
ghost use Rattle.occ_engine.specs.occ_script.declared.script.Order.{Order};
ghost use Rattle.occ_engine.specs.occ_script.Orders.{IsOrders};
ghost use Rattle.occ_engine.specs.occ_syntax.declared.scope.Kind.{Kind};
ghost use Rattle.occ_engine.specs.occ_syntax.Scopes.{environment};
ghost use Rattle.occ_engine.specs.occ_syntax.Tree.{Tree};
ghost use Rattle.occ_engine.specs.occ_syntax.Types.{scope_kept, types_kept};
ghost use Rattle.occ_engine.specs.occ_syntax.Usage.{Keeps};

/// A law brings no declared name into its direct result: a test that each name passes that the left side declares is passed by each
/// that the direct result declares.
pub fn direct_results_declare_no_new_names()
    ensures { (n : ℕ) (S : List (Name × Kind)) (l r : Tree) (test : ℕ → Bool) → IsDirect n S l r
        → declares test l ≡ true → declares test r ≡ true }
{}

/// In a process of kept types all names are below a number, where those of its scope and those that it declares are.
pub fn kept_parts_have_known_names()
    ensures { (n : ℕ) (S : List (Name × Kind)) (p : Tree) → scope_kept S ≡ true → types_kept p (environment S) ≡ true
        → NamesAreBelow n S p → IsKnownPart n S p }
{}

/// Names below a number are below each greater one, as in a table that has grown.
pub fn names_stay_below()
    ensures { (m n : ℕ) (S : List (Name × Kind)) (p : Tree) → m ≤ n → NamesAreBelow m S p → NamesAreBelow n S p }
{}

/// Each part that a text of orders gives declares names of the table that reading left, whatever the scope is in which it stands.
pub fn given_parts_declare_known_names()
    ensures { (text : List ℕ) (old new : List (List ℕ)) (orders : List Order) → IsOrders text old new orders
        → AllGiveBelow (length new) (orders_of orders) }
{}

/// Orders that are followed put in parts whose names are in the table that reading them left, and lead to such a process.
pub fn followed_orders_have_known_names()
    ensures { (text : List ℕ) (old new : List (List ℕ)) (orders : List Order) (S : List (Name × Kind)) (p q : Tree) (moves : List Move)
        → IsOrders text old new orders → scope_kept S ≡ true → Keeps (environment S) p → NamesAreBelow (length new) S p
        → Follows S p (orders_of orders) moves q → LeadToKnown (length new) S p moves q }
{}

/// An expansion puts in parts whose names are below a number, where those of the process are, and leads to such a process.
pub fn expansions_have_known_names()
    ensures { (n : ℕ) (S : List (Name × Kind)) (p q : Tree) (path : List ℕ) (moves : List Move)
        → scope_kept S ≡ true → Keeps (environment S) p → NamesAreBelow n S p → IsExpanded S p path moves q
        → LeadToKnown n S p moves q }
{}

/// A program that was read has the name of its header from the table that reading left.
pub fn read_programs_have_known_names()
    ensures { (b : Bound) (text : List ℕ) (old new : List (List ℕ)) (name : Name) (params : List (Name × Kind)) (body : Tree)
        (numbers : List ℕ) → IsRead b text old new name params body numbers → name.0 < length new }
{}
