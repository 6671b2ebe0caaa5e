//! The laws of SEQ, of assignment, and of communication as choice: the two sides of each mean the same.
//! Each law is the contract of a function that does nothing.

ghost use Rattle.occ_law.specs.occ_base.declared.names.Name.{Name};
ghost use Rattle.occ_law.specs.Sequence.{AssignAlt, AssignId, AssignIf, AssignJoin, AssignOrder, AssignPad, ExprEqual, IoAlt, SeqAlt, SeqFlat, SeqIf, SeqNone, SeqOne, SeqSkip, SeqStop, SequenceSides};
ghost use Rattle.occ_law.specs.occ_syntax.Same.{SAME};
ghost use Rattle.occ_law.specs.occ_syntax.Scopes.{Environment, environment};
ghost use Rattle.occ_law.specs.occ_syntax.Tree.{Tree};
ghost use Rattle.occ_law.specs.occ_syntax.Types.{types_kept};
ghost use Rattle.occ_law.specs.occ_syntax.declared.scope.Kind.{Kind};
ghost use Rattle.std.specs.Prelude.{List, true, ℕ, ◌≡◌};

/// A SEQ without parts is SKIP.
pub fn seq_none_is_sound()
    ensures { (Γ : Environment) (ks : List ℕ) (l r : Tree) → SeqNone ks l r → SAME Γ l r }
{}

/// A SEQ of one part is that part.
pub fn seq_one_is_sound()
    ensures { (Γ : Environment) (ks : List ℕ) (l r : Tree) → SeqOne ks l r → SAME Γ l r }
{}

/// A SEQ among the parts of a SEQ gives its parts in its place.
pub fn seq_flat_is_sound()
    ensures { (Γ : Environment) (ks : List ℕ) (l r : Tree) → SeqFlat ks l r → SAME Γ l r }
{}

/// SKIP among the parts may be left out.
pub fn seq_skip_is_sound()
    ensures { (Γ : Environment) (ks : List ℕ) (l r : Tree) → SeqSkip ks l r → SAME Γ l r }
{}

/// What stands behind STOP may be left out.
pub fn seq_stop_is_sound()
    ensures { (Γ : Environment) (ks : List ℕ) (l r : Tree) → SeqStop ks l r → SAME Γ l r }
{}

/// An assignment of variables to themselves is SKIP.
pub fn assign_id_is_sound()
    ensures { (Γ : Environment) (ks : List ℕ) (l r : Tree) → AssignId ks l r → SAME Γ l r }
{}

/// The pairs of a well-typed assignment may stand in any order.
pub fn assign_order_is_sound()
    ensures { (Γ : Environment) (ks : List ℕ) (l r : Tree) → types_kept l Γ ≡ true → AssignOrder ks l r → SAME Γ l r }
{}

/// A well-typed assignment may give a further variable its own value.
pub fn assign_pad_is_sound()
    ensures { (Γ : Environment) (ks : List ℕ) (l r : Tree) → types_kept l Γ ≡ true → AssignPad ks l r → SAME Γ l r }
{}

/// Two well-typed assignments of the same variables are one.
pub fn assign_join_is_sound()
    ensures { (Γ : Environment) (ks : List ℕ) (l r : Tree) → types_kept l Γ ≡ true → AssignJoin ks l r → SAME Γ l r }
{}

/// A well-typed assignment in front of an IF may stand in each of its choices.
pub fn assign_if_is_sound()
    ensures { (Γ : Environment) (ks : List ℕ) (l r : Tree) → types_kept l Γ ≡ true → AssignIf ks l r → SAME Γ l r }
{}

/// A well-typed assignment in front of an ALT may stand in each of its branches.
pub fn assign_alt_is_sound()
    ensures { (Γ : Environment) (ks : List ℕ) (l r : Tree) → types_kept l Γ ≡ true → AssignAlt ks l r → SAME Γ l r }
{}

/// What follows an IF may stand in each of its choices.
pub fn seq_if_is_sound()
    ensures { (Γ : Environment) (ks : List ℕ) (l r : Tree) → SeqIf ks l r → SAME Γ l r }
{}

/// What follows an ALT may stand in each of its branches.
pub fn seq_alt_is_sound()
    ensures { (Γ : Environment) (ks : List ℕ) (l r : Tree) → SeqAlt ks l r → SAME Γ l r }
{}

/// Expressions that are equal in every state may stand for one another.
pub fn expr_is_sound()
    ensures { (S : List (Name × Kind)) (ks : List ℕ) (l r : Tree) → ExprEqual S ks l r → SAME (environment S) l r }
{}

/// An output or an input is the ALT with that one guard.
pub fn io_alt_is_sound()
    ensures { (Γ : Environment) (ks : List ℕ) (l r : Tree) → IoAlt ks l r → SAME Γ l r }
{}

/// Each of these laws, by its number in the table, leads to parts that are the same.
pub fn sequence_laws_are_sound()
    ensures { (n : ℕ) (S : List (Name × Kind)) (ks : List ℕ) (l r : Tree) → types_kept l (environment S) ≡ true → SequenceSides n S ks l r →
        SAME (environment S) l r }
{}
