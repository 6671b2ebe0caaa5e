//! The laws of declared variables and channels: the two sides of each mean the same.
//! Each law is the contract of a function that does nothing.

ghost use Rattle.occ_law.specs.occ_base.declared.names.Name.{Name};
ghost use Rattle.occ_law.specs.Scope.{ChanAlt, ChanIf, ChanPar, ChanRename, ChanSeq, ChanSwap, ChanUnused, ScopeSides, VarAlt, VarAltInput, VarAny, VarAssign, VarEnd, VarFirst, VarIf, VarLast, VarPar, VarRename, VarSwap, VarUnused};
ghost use Rattle.occ_law.specs.occ_syntax.Same.{SAME};
ghost use Rattle.occ_law.specs.occ_syntax.Scopes.{Environment, environment};
ghost use Rattle.occ_law.specs.occ_syntax.Tree.{Tree};
ghost use Rattle.occ_law.specs.occ_syntax.Types.{types_kept};
ghost use Rattle.occ_law.specs.occ_syntax.declared.scope.Kind.{Kind};
ghost use Rattle.std.specs.Prelude.{List, true, ℕ, ◌≡◌};

/// A variable that is not free in its well-typed part may be left out.
pub fn var_unused_is_sound()
    ensures { (Γ : Environment) (ks : List ℕ) (l r : Tree) → types_kept l Γ ≡ true → VarUnused ks l r → SAME Γ l r }
{}

/// A declared variable may have another name.
pub fn var_rename_is_sound()
    ensures { (Γ : Environment) (ks : List ℕ) (l r : Tree) → types_kept l Γ ≡ true → VarRename Γ ks l r → SAME Γ l r }
{}

/// The declaration of a variable may change places with the next one.
pub fn var_swap_is_sound()
    ensures { (Γ : Environment) (ks : List ℕ) (l r : Tree) → types_kept l Γ ≡ true → VarSwap ks l r → SAME Γ l r }
{}

/// A variable may be declared behind a part that does not have it.
pub fn var_first_is_sound()
    ensures { (Γ : Environment) (ks : List ℕ) (l r : Tree) → types_kept l Γ ≡ true → VarFirst ks l r → SAME Γ l r }
{}

/// A variable may be declared for the first of two parts alone, where the second does not have it.
pub fn var_last_is_sound()
    ensures { (Γ : Environment) (ks : List ℕ) (l r : Tree) → types_kept l Γ ≡ true → VarLast ks l r → SAME Γ l r }
{}

/// A variable that no condition names may be declared in each choice.
pub fn var_if_is_sound()
    ensures { (Γ : Environment) (ks : List ℕ) (l r : Tree) → VarIf ks l r → SAME Γ l r }
{}

/// A variable that no guard names may be declared in each branch.
pub fn var_alt_is_sound()
    ensures { (Γ : Environment) (ks : List ℕ) (l r : Tree) → VarAlt ks l r → SAME Γ l r }
{}

/// An input may go into a declared variable first, and be passed on from there.
pub fn var_alt_input_is_sound()
    ensures { (Γ : Environment) (ks : List ℕ) (l r : Tree) → types_kept l Γ ≡ true → VarAltInput Γ ks l r → SAME Γ l r }
{}

/// A variable may be declared for one part of a PAR, where the others do not have it.
pub fn var_par_is_sound()
    ensures { (Γ : Environment) (ks : List ℕ) (l r : Tree) → types_kept l Γ ≡ true → VarPar ks l r → SAME Γ l r }
{}

/// A declared variable begins with any of its values.
pub fn var_any_is_sound()
    ensures { (Γ : Environment) (ks : List ℕ) (l r : Tree) → VarAny ks l r → SAME Γ l r }
{}

/// An assignment to a declared variable alone changes nothing outside.
pub fn var_assign_is_sound()
    ensures { (Γ : Environment) (ks : List ℕ) (l r : Tree) → VarAssign ks l r → SAME Γ l r }
{}

/// A last assignment to a declared variable may be left out.
pub fn var_end_is_sound()
    ensures { (Γ : Environment) (ks : List ℕ) (l r : Tree) → VarEnd ks l r → SAME Γ l r }
{}

/// A channel that is not free in its well-typed part may be left out.
pub fn chan_unused_is_sound()
    ensures { (Γ : Environment) (ks : List ℕ) (l r : Tree) → types_kept l Γ ≡ true → ChanUnused ks l r → SAME Γ l r }
{}

/// A declared channel may have another name.
pub fn chan_rename_is_sound()
    ensures { (Γ : Environment) (ks : List ℕ) (l r : Tree) → types_kept l Γ ≡ true → ChanRename Γ ks l r → SAME Γ l r }
{}

/// The declarations of two channels may change places.
pub fn chan_swap_is_sound()
    ensures { (Γ : Environment) (ks : List ℕ) (l r : Tree) → types_kept l Γ ≡ true → ChanSwap ks l r → SAME Γ l r }
{}

/// A channel may be declared for each of two parts that follow one another.
pub fn chan_seq_is_sound()
    ensures { (Γ : Environment) (ks : List ℕ) (l r : Tree) → ChanSeq ks l r → SAME Γ l r }
{}

/// A channel may be declared in each choice.
pub fn chan_if_is_sound()
    ensures { (Γ : Environment) (ks : List ℕ) (l r : Tree) → types_kept l Γ ≡ true → ChanIf ks l r → SAME Γ l r }
{}

/// A channel may be declared in each branch that does not wait on it.
pub fn chan_alt_is_sound()
    ensures { (Γ : Environment) (ks : List ℕ) (l r : Tree) → types_kept l Γ ≡ true → ChanAlt ks l r → SAME Γ l r }
{}

/// A channel may be declared for one part of a PAR, where the others do not have it.
pub fn chan_par_is_sound()
    ensures { (Γ : Environment) (ks : List ℕ) (l r : Tree) → types_kept l Γ ≡ true → ChanPar ks l r → SAME Γ l r }
{}

/// Each of these laws, by its number in the table, leads to parts that are the same.
pub fn scope_laws_are_sound()
    ensures { (n : ℕ) (S : List (Name × Kind)) (ks : List ℕ) (l r : Tree) → types_kept l (environment S) ≡ true → ScopeSides n S ks l r →
        SAME (environment S) l r }
{}
