//! The laws of PAR: the two sides of each mean the same.
//! Each law is the contract of a function that does nothing.

ghost use Rattle.occ_law.specs.occ_base.declared.names.Name.{Name};
ghost use Rattle.occ_law.specs.Parallel.{ParAssign, ParExpand, ParFlat, ParIf, ParNone, ParOne, ParOrder, ParSkip, ParStop, ParallelSides};
ghost use Rattle.occ_law.specs.occ_syntax.Same.{SAME};
ghost use Rattle.occ_law.specs.occ_syntax.Scopes.{Environment, environment};
ghost use Rattle.occ_law.specs.occ_syntax.Tree.{Tree};
ghost use Rattle.occ_law.specs.occ_syntax.Usage.{Keeps};
ghost use Rattle.occ_law.specs.occ_syntax.declared.scope.Kind.{Kind};
ghost use Rattle.std.specs.Prelude.{List, ℕ};

/// A PAR without parts is SKIP.
pub fn par_none_is_sound()
    ensures { (Γ : Environment) (ks : List ℕ) (l r : Tree) → ParNone ks l r → SAME Γ l r }
{}

/// A PAR of one part is that part.
pub fn par_one_is_sound()
    ensures { (Γ : Environment) (ks : List ℕ) (l r : Tree) → ParOne ks l r → SAME Γ l r }
{}

/// A PAR among the parts of a PAR gives its parts in its place.
pub fn par_flat_is_sound()
    ensures { (Γ : Environment) (ks : List ℕ) (l r : Tree) → ParFlat ks l r → SAME Γ l r }
{}

/// The parts of a PAR that keeps types and usage may stand in any order.
pub fn par_order_is_sound()
    ensures { (Γ : Environment) (ks : List ℕ) (l r : Tree) → Keeps Γ l → ParOrder ks l r → SAME Γ l r }
{}

/// SKIP among the parts may be left out.
pub fn par_skip_is_sound()
    ensures { (Γ : Environment) (ks : List ℕ) (l r : Tree) → ParSkip ks l r → SAME Γ l r }
{}

/// A part beside STOP is that part followed by STOP.
pub fn par_stop_is_sound()
    ensures { (Γ : Environment) (ks : List ℕ) (l r : Tree) → ParStop ks l r → SAME Γ l r }
{}

/// An assignment that begins one part of a PAR may stand in front of it.
pub fn par_assign_is_sound()
    ensures { (Γ : Environment) (ks : List ℕ) (l r : Tree) → Keeps Γ l → ParAssign ks l r → SAME Γ l r }
{}

/// An IF beside a part, one of whose conditions is always true, chooses among PARs.
pub fn par_if_is_sound()
    ensures { (S : List (Name × Kind)) (ks : List ℕ) (l r : Tree) → ParIf S ks l r → SAME (environment S) l r }
{}

/// Two ALTs side by side are the ALT of all that they can do first.
pub fn par_expand_is_sound()
    ensures { (Γ : Environment) (ks : List ℕ) (l r : Tree) → Keeps Γ l → ParExpand ks l r → SAME Γ l r }
{}

/// Each of these laws, by its number in the table, leads to parts that are the same.
pub fn parallel_laws_are_sound()
    ensures { (n : ℕ) (S : List (Name × Kind)) (ks : List ℕ) (l r : Tree) → Keeps (environment S) l → ParallelSides n S ks l r →
        SAME (environment S) l r }
{}
