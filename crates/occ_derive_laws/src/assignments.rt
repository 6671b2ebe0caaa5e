//! The laws of assignments.

ghost use Rattle.std.specs.Prelude.{◌≡◌, ◌∷◌, ◌++◌, ℕ, [], List, Some, false, map, true};
ghost use Rattle.occ_renamed.specs.occ_base.declared.names.Name.{Name};
ghost use Rattle.occ_renamed.specs.occ_base.declared.width.Width.{Width};
ghost use Rattle.occ_derive_laws.specs.Alike.{AreVariables, IsOnce};
ghost use Rattle.occ_renamed.specs.occ_law.Lists.{PairsReordered, variables};
ghost use Rattle.occ_renamed.specs.occ_law.Sequence.{each_assigned, each_guard_assigned, spare_inputs};
ghost use Rattle.occ_renamed.specs.occ_law.RuleTable.{LAW};
ghost use Rattle.occ_renamed.specs.occ_meaning.Parallel.{two};
ghost use Rattle.occ_renamed.specs.occ_meaning.Substitution.{substituted, value_for};
ghost use Rattle.occ_renamed.specs.occ_syntax.declared.scope.Kind.{Kind};
ghost use Rattle.occ_renamed.specs.occ_syntax.Names.{is_in, some_names};
ghost use Rattle.occ_renamed.specs.occ_syntax.Scopes.{environment, variable_width};
ghost use Rattle.occ_renamed.specs.occ_syntax.Tree.{Branches, Cases, Exp, alt, assign, select, seq, skip, variable};
ghost use Rattle.occ_renamed.specs.occ_syntax.Types.{is_pair};
ghost use Rattle.occ_renamed.specs.occ_syntax.Usage.{Keeps};

/// The variables of an assignment are in scope, each once.
pub fn assigned_are_variables()
    ensures all { (S : List (Name × Kind)) (xs : List ℕ) (es : List Exp) → Keeps (environment S) (assign xs es)
        → AreVariables (environment S) xs }
    ensures each { (S : List (Name × Kind)) (xs : List ℕ) (x : ℕ) → AreVariables (environment S) xs → is_in xs x ≡ true
        → (w : Width) × (variable_width (environment S) x ≡ Some w) }
{}

/// SKIP is the assignment of variables to themselves.
pub fn assign_id_joins()
    ensures { (S : List (Name × Kind)) (xs : List ℕ) → is_pair xs ≡ true → AreVariables (environment S) xs
        → LAW 6 S (assign xs (variables xs)) skip }
{}

/// The pairs of an assignment may stand in any order: each variable of another list of the same ones, each once, with its right side.
pub fn assign_order_joins()
    ensures law { (S : List (Name × Kind)) (xs ys : List ℕ) (es fs : List Exp) → Keeps (environment S) (assign xs es)
        → PairsReordered xs es ys fs → LAW 7 S (assign xs es) (assign ys fs) }
    ensures orders { (S : List (Name × Kind)) (xs ys : List ℕ) (es : List Exp) → Keeps (environment S) (assign xs es) → IsOnce ys
        → ((x : ℕ) → is_in xs x ≡ is_in ys x) → PairsReordered xs es ys (map (value_for xs es) ys) }
{}

/// An assignment may give a further variable its own value, or not give it.
pub fn assign_pad_joins()
    ensures forward { (S : List (Name × Kind)) (xs : List ℕ) (es : List Exp) (y : ℕ) (w : Width) → Keeps (environment S) (assign xs es)
        → is_in xs y ≡ false → variable_width (environment S) y ≡ Some w
        → LAW 8 S (assign xs es) (assign (xs ++ y ∷ []) (es ++ variable y ∷ [])) }
    ensures backward { (S : List (Name × Kind)) (xs : List ℕ) (es : List Exp) (y : ℕ) → is_pair xs ≡ true
        → Keeps (environment S) (assign (xs ++ y ∷ []) (es ++ variable y ∷ []))
        → LAW 8 S (assign xs es) (assign (xs ++ y ∷ []) (es ++ variable y ∷ [])) }
{}

/// Two assignments of the same variables are one.
pub fn assign_join_joins()
    ensures forward { (S : List (Name × Kind)) (xs : List ℕ) (es fs : List Exp)
        → Keeps (environment S) (seq (two (assign xs es) (assign xs fs)))
        → LAW 9 S (seq (two (assign xs es) (assign xs fs))) (assign xs (map (substituted xs es) fs)) }
    ensures backward { (S : List (Name × Kind)) (xs : List ℕ) (es fs : List Exp) → Keeps (environment S) (assign xs es)
        → Keeps (environment S) (assign xs (map (substituted xs es) fs))
        → LAW 9 S (seq (two (assign xs es) (assign xs fs))) (assign xs (map (substituted xs es) fs)) }
{}

/// An assignment goes into the choices of an IF behind it.
pub fn assign_if_joins()
    ensures { (S : List (Name × Kind)) (xs : List ℕ) (es : List Exp) (cs : Cases)
        → Keeps (environment S) (seq (two (assign xs es) (select cs)))
        → LAW 10 S (seq (two (assign xs es) (select cs))) (select (each_assigned xs es cs)) }
{}

/// An assignment goes into the branches of an ALT behind it, where no right side that is kept names what a guard inputs: as where none
/// names anything.
pub fn assign_alt_joins()
    ensures forward { (S : List (Name × Kind)) (xs : List ℕ) (es : List Exp) (gs : Branches)
        → Keeps (environment S) (seq (two (assign xs es) (alt gs))) → spare_inputs xs es gs ≡ true
        → LAW 11 S (seq (two (assign xs es) (alt gs))) (alt (each_guard_assigned xs es gs)) }
    ensures spared { (xs : List ℕ) (es : List Exp) (gs : Branches) → ((x : ℕ) → some_names es x ≡ false) → spare_inputs xs es gs ≡ true }
{}
