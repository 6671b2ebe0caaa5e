//! What a state tells of the part behind it: assignments are evaluated, choices taken, declared variables begin with each of their
//! values, and go at the end. Here are the laws; there is no code.

ghost use Rattle.std.specs.Prelude.{◌≡◌, ◌++◌, ℕ, List, true};
ghost use Rattle.std.specs.List.{AllByRecursion};
ghost use Rattle.occ_derive_laws.specs.occ_base.declared.names.Name.{Name};
ghost use Rattle.occ_derive_laws.specs.occ_base.declared.width.Width.{Width};
ghost use Rattle.occ_complete_states.specs.Configured.{IsClear};
ghost use Rattle.occ_complete_states.specs.Headers.{IsHeader};
ghost use Rattle.occ_complete_states.specs.Heads.{or_else};
ghost use Rattle.occ_complete_states.specs.States.{scope_of, told};
ghost use Rattle.occ_complete_states.specs.Telling.{Begins, Ends, IsAssigned, IsTaken, IsTold};
ghost use Rattle.occ_derive_laws.specs.occ_syntax.declared.scope.Kind.{Kind};
ghost use Rattle.occ_derive_laws.specs.occ_syntax.Declarations.{declaring_all};
ghost use Rattle.occ_derive_laws.specs.occ_syntax.Scopes.{Values, environment};
ghost use Rattle.occ_derive_laws.specs.occ_syntax.Tree.{Cases, Exp, Tree, assign, declare, select};
ghost use Rattle.occ_derive_laws.specs.occ_syntax.Usage.{Keeps};
ghost use Rattle.occ_derive_laws.specs.occ_target_laws.Bodies.{IsVariable};
ghost use Rattle.occ_derive_laws.specs.occ_target_laws.Shapes.{Header};

/// An assignment behind a state leads to the state after it.
pub fn assignments_are_told()
    ensures { (T : List (Name × Kind)) (s : Values) (xs : List ℕ) (es : List Exp) → IsTold T s → Keeps (environment T) (assign xs es)
        → IsAssigned T s xs es }
{}

/// An IF with a last choice leads to the choice that is taken.
pub fn choices_are_taken()
    ensures { (T : List (Name × Kind)) (s : Values) (cs : Cases) (p : Tree) → IsTold T s → Keeps (environment T) (select (or_else cs p))
        → IsTaken T s cs p }
{}

/// A declared variable begins with each of its values.
pub fn declared_variables_begin()
    ensures { (T : List (Name × Kind)) (s : Values) (y : ℕ) (w : Width) (p : Tree) → IsTold T s → Keeps (environment T) (declare y w p)
        → Begins T s y w p }
{}

/// A state with nothing behind it ends: the declared variables go.
pub fn states_end()
    ensures { (h : Header) (ys : List (Name × Kind)) (s : Values) → IsHeader h → AllByRecursion (λ (y : Name × Kind). IsVariable y.1) ys
        → IsTold (scope_of h ++ ys) s → IsClear h ys s → Ends h (declaring_all ys (told (scope_of h ++ ys) s)) }
{}
