ghost use Rattle.occ_syntax.specs.occ_base.Names.{IsDistinct};
ghost use Rattle.occ_syntax.specs.occ_base.declared.names.Name.{Name};
ghost use Rattle.occ_compare.specs.occ_behaviour.declared.behaviour.Behaviour.{Behaviour};
ghost use Rattle.occ_behaviour_read.specs.Claims.{bare_lines, claim_read};
ghost use Rattle.occ_nform_read.specs.occ_nform_table.Tables.{IsInterface, are_params};
ghost use Rattle.occ_syntax.specs.declared.scope.Kind.{Kind};
ghost use Rattle.occ_behaviour_read.specs.Behaviours.{AreBehaviourLines, IsBehaviourText};
ghost use Rattle.occ_behaviour_read.specs.Stops.{StopsAt};
ghost use Rattle.std.specs.Prelude.{[], ℕ, List, Ok, Err, true, ◌≡◌, ◌↔◌};

/// A text is read as a behaviour exactly where its lines are those of the behaviour's text.
pub fn behaviours_are_read_as_written()
    ensures { (names : List (List ℕ)) (params : List (Name × Kind)) (text : List ℕ) (b : Behaviour) → IsDistinct names
        → IsInterface names params → are_params names [] params ≡ true
        → (claim_read names params text ≡ Ok b) ↔ IsBehaviourText names params b (bare_lines text) }
{}

/// A text is refused on a line exactly where this is the first behind which no text of a behaviour goes on.
pub fn faults_stand_where_nothing_goes_on()
    ensures { (names : List (List ℕ)) (params : List (Name × Kind)) (text : List ℕ) (line : ℕ) → IsDistinct names
        → IsInterface names params → are_params names [] params ≡ true
        → (claim_read names params text ≡ Err line) ↔ StopsAt (AreBehaviourLines names params) (bare_lines text) line }
{}
