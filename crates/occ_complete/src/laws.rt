//! Processes of normal shape, from what a body comes to.

ghost use Rattle.std.specs.Prelude.{◌≡◌, ◌+◌, ◌++◌, ◌≤◌, ℕ, List, false, true};
ghost use Rattle.std.specs.List.{AllByRecursion};
ghost use Rattle.occ_engine.specs.occ_base.declared.names.Name.{Name};
ghost use Rattle.occ_complete_states.specs.occ_behaviour.States.{is_state};
ghost use Rattle.occ_complete.specs.Begun.{HasBegun, HasShapedBody};
ghost use Rattle.occ_complete.specs.Clearing.{and_then, with_clearing};
ghost use Rattle.occ_complete.specs.Followed.{IsFollowed, renewed};
ghost use Rattle.occ_complete.specs.Tables.{header_of};
ghost use Rattle.occ_complete.specs.ProgramWays.{HasShape, Settles, Tells, Unifies};
ghost use Rattle.occ_complete_states.specs.occ_derive_moves.Unified.{cleared, ending_cleared};
ghost use Rattle.occ_complete_states.specs.occ_derive_moves.Weight.{weight};
ghost use Rattle.occ_complete_states.specs.Configured.{Follows};
ghost use Rattle.occ_complete_states.specs.Few.{IsFew};
ghost use Rattle.occ_complete_states.specs.Headers.{IsHeader};
ghost use Rattle.occ_complete_states.specs.Leads.{Leads};
ghost use Rattle.occ_complete_states.specs.Nodes.{IsUnifiedNode, any_of};
ghost use Rattle.occ_complete_states.specs.States.{scope_of};
ghost use Rattle.occ_complete_states.specs.Ways.{AreConfigured};
ghost use Rattle.occ_engine.specs.occ_meaning.Rename.{stands};
ghost use Rattle.occ_complete_states.specs.occ_nform_table.Normal.{Parts};
ghost use Rattle.occ_complete_states.specs.occ_nform_table.Tables.{IsNormal};
ghost use Rattle.occ_complete_states.specs.occ_nform_table.Lists.{In};
ghost use Rattle.occ_engine.specs.occ_syntax.declared.scope.Kind.{Kind};
ghost use Rattle.occ_engine.specs.occ_syntax.Counts.{bits_of_scope};
ghost use Rattle.occ_engine.specs.occ_syntax.Declarations.{declaring_all};
ghost use Rattle.occ_engine.specs.occ_syntax.Scopes.{environment};
ghost use Rattle.occ_engine.specs.occ_syntax.Tree.{Tree, Waiting};
ghost use Rattle.occ_engine.specs.occ_syntax.Types.{scope_kept};
ghost use Rattle.occ_engine.specs.occ_syntax.Usage.{Keeps};
ghost use Rattle.occ_complete_states.specs.occ_target.States.{ending, variables};
ghost use Rattle.occ_complete_states.specs.occ_target_laws.Bodies.{AreDeclared, IsVariable};
ghost use Rattle.occ_complete_states.specs.occ_target_laws.Shapes.{Header, IsShaped, Node, process_of};

/// A node each of whose events is followed as in a normal program is the node of a process of normal shape.
pub fn nodes_that_are_followed_are_shaped()
    ensures { (h : Header) (limit : ℕ) (f : Waiting × Tree → Tree) (n : Node) → IsUnifiedNode h (Follows h limit) n
        → ((b : Waiting × Tree) → In b n.events → IsFollowed h b.0 (f b)) → IsShaped h (process_of h (renewed f n)) }
{}

/// An end that says that the variables for inputs are FALSE or 0 leads to one that says nothing of them, and the clearing behind it.
pub fn ends_are_parted()
    ensures { (h : Header) (state : List (Name × ℕ)) → scope_kept (scope_of h) ≡ true → is_state h.params state ≡ true
        → Keeps (environment (scope_of h)) (ending_cleared h state)
        → Leads (scope_of h) (ending_cleared h state) (with_clearing h (ending h.params state)) }
{}

/// The clearing of declared variables goes at the end of their scope.
pub fn clearing_goes()
    ensures { (S ys : List (Name × Kind)) (p : Tree) → scope_kept (S ++ ys) ≡ true → AllByRecursion (λ (y : Name × Kind). IsVariable y.1) ys
        → Keeps (environment S) (declaring_all ys (and_then (variables ys) (cleared ys) p))
        → Leads S (declaring_all ys (and_then (variables ys) (cleared ys) p)) (declaring_all ys p) }
{}

/// Where each step from one event to the next can be taken, some configurations lead to a process of normal shape, with the clearing
/// behind it: by how much is left to do.
pub fn superpositions_are_shaped()
    ensures { (h : Header) (limit : ℕ) (ps : List Tree) → IsHeader h → Settles h → Unifies h → Tells h → AreConfigured h limit ps
        → Keeps (environment (scope_of h)) (any_of ps) → HasShape h (any_of ps) }
{}

/// A body has a configuration for each initial state, with the whole body left to do. The names of the variables for inputs stand nowhere
/// in it.
pub fn bodies_begin()
    ensures { (h : Header) (p : Tree) → IsHeader h → Keeps (environment h.params) p → IsFew h.params p
        → AllByRecursion (λ (t : Name × Kind). stands p t.0.0 ≡ false) h.inputs → bits_of_scope h.params ≤ 16
        → HasBegun h (weight p + 1) p }
{}

/// A body that has a configuration for each initial state leads to a body of normal shape.
pub fn bodies_are_shaped()
    ensures { (h : Header) (limit : ℕ) (p : Tree) → IsHeader h → Settles h → Unifies h → Tells h → Keeps (environment h.params) p
        → HasBegun h limit p → HasShapedBody h p }
{}

/// The parameters of a normal table and the variables into which its program inputs are a header.
pub fn tables_have_headers()
    ensures { (t : Parts) → IsNormal t → scope_kept t.params ≡ true → AreDeclared (header_of t) → IsHeader (header_of t) }
{}
