//! Laws of leading.

ghost use Rattle.std.specs.Prelude.{◌≡◌, ◌++◌, ℕ, List, Some, false, true};
ghost use Rattle.occ_derive_laws.specs.occ_base.declared.names.Name.{Name};
ghost use Rattle.occ_complete_states.specs.Leads.{BranchesLead, CasesLead, Leads, LeadsSparing};
ghost use Rattle.occ_derive_laws.specs.occ_derive_moves.Moves.{is_par};
ghost use Rattle.occ_derive_laws.specs.occ_law.RuleTable.{LAW};
ghost use Rattle.occ_derive_laws.specs.occ_meaning.Context.{child, with_child};
ghost use Rattle.occ_derive_laws.specs.occ_script_lines.Places.{declared_by};
ghost use Rattle.occ_derive_laws.specs.occ_syntax.declared.scope.Kind.{Kind};
ghost use Rattle.occ_derive_laws.specs.occ_syntax.Scopes.{environment};
ghost use Rattle.occ_derive_laws.specs.occ_syntax.Tree.{Branches, Cases, Tree, alt, select};
ghost use Rattle.occ_derive_laws.specs.occ_syntax.Types.{scope_kept};
ghost use Rattle.occ_derive_laws.specs.occ_syntax.Usage.{Keeps};
ghost use Rattle.occ_derive_laws.specs.occ_usage.Local.{UsesNoMore};

/// A part leads to itself, and from where another one leads on.
pub fn leading_goes_on()
    ensures itself { (S : List (Name × Kind)) (p : Tree) → LeadsSparing S p p }
    ensures on { (S : List (Name × Kind)) (p q r : Tree) → Leads S p q → Leads S q r → Leads S p r }
    ensures sparing { (S : List (Name × Kind)) (p q r : Tree) → LeadsSparing S p q → LeadsSparing S q r → LeadsSparing S p r }
    ensures weaker { (S : List (Name × Kind)) (p q : Tree) → LeadsSparing S p q → Leads S p q }
{}

/// Each side of a law leads to the other.
pub fn sides_of_laws_lead()
    ensures forward { (S : List (Name × Kind)) (n : ℕ) (p q : Tree) → LAW n S p q → Leads S p q }
    ensures backward { (S : List (Name × Kind)) (n : ℕ) (p q : Tree) → LAW n S q p → Leads S p q }
{}

/// It does so wherever it stands, where the other one uses no more.
pub fn sparing_sides_lead()
    ensures forward { (S : List (Name × Kind)) (n : ℕ) (p q : Tree) → LAW n S p q → UsesNoMore q p → LeadsSparing S p q }
    ensures backward { (S : List (Name × Kind)) (n : ℕ) (p q : Tree) → LAW n S q p → UsesNoMore q p → LeadsSparing S p q }
{}

/// A part of a process that is no PAR may be replaced by one to which it leads.
pub fn parts_that_lead_are_replaced()
    ensures { (S : List (Name × Kind)) (p c d : Tree) (i : ℕ) → is_par p ≡ false → child p i ≡ Some c → Leads (S ++ declared_by p) c d
        → Leads S p (with_child p i d) }
{}

/// A part of any process may, by sparing moves.
pub fn sparing_parts_are_replaced()
    ensures { (S : List (Name × Kind)) (p c d : Tree) (i : ℕ) → child p i ≡ Some c → LeadsSparing (S ++ declared_by p) c d
        → LeadsSparing S p (with_child p i d) }
{}

/// All processes of an IF or an ALT may be replaced by those to which they lead.
pub fn processes_that_lead_are_replaced()
    ensures choices { (S : List (Name × Kind)) (cs ds : Cases) → CasesLead S cs ds → Leads S (select cs) (select ds) }
    ensures branches { (S : List (Name × Kind)) (gs hs : Branches) → BranchesLead S gs hs → Leads S (alt gs) (alt hs) }
{}

/// What a part leads to keeps names, types, directions and usage, and uses no more where each move is sparing.
pub fn leading_keeps_the_rules()
    ensures rules { (S : List (Name × Kind)) (p q : Tree) → scope_kept S ≡ true → Keeps (environment S) p → Leads S p q → Keeps (environment S) q }
    ensures sparing { (S : List (Name × Kind)) (p q : Tree) → LeadsSparing S p q → UsesNoMore q p }
{}
