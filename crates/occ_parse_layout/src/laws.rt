ghost use Rattle.occ_parse_rules.specs.Forest.{Forest, Laid, lines_at};
ghost use Rattle.occ_parse_layout.specs.Layout.{least_bad};
ghost use Rattle.occ_parse_layout.specs.Nesting.{Nest};
ghost use Rattle.occ_parse_layout.specs.Options.{options_declare_nothing};
ghost use Rattle.occ_parse_layout.specs.Whole.{IsProgram, every_line, is_inner, is_single, outermost_level};
ghost use Rattle.occ_parse_layout.specs.declared.placed.Frame.TheVariants.{Part, Plain, Program};
ghost use Rattle.occ_parse_layout.specs.declared.placed.Frame.{Frame};
ghost use Rattle.std.specs.Prelude.{◌≡◌, ℕ, Bool, List, None, false, true};

/// Lines are those of one forest at most.
pub fn one_forest()
    ensures { (level : ℕ) (f g : Forest) → lines_at level f ≡ lines_at level g → f ≡ g }
{}

/// Good lines are those of a forest: none is more than one level deeper than the line before.
pub fn good_lines_nest()
    ensures { (f : Frame) (more : Bool) (rows : List Laid) → least_bad f more rows ≡ None → Nest (outermost_level f) (outermost_level f) rows }
{}

/// The forest of a good program is a header line with the lines below it, and a closing line.
pub fn good_programs_have_one_header()
    ensures program { (rows : List Laid) (forest : Forest) → lines_at 0 forest ≡ rows → least_bad Program false rows ≡ None → IsProgram forest }
    ensures plain { (rows : List Laid) (forest : Forest) → lines_at 0 forest ≡ rows → least_bad Plain false rows ≡ None → IsProgram forest }
{}

/// The forest of a good part has no header and no closing line.
pub fn good_parts_have_no_header()
    ensures { (rows : List Laid) (forest : Forest) → lines_at 1 forest ≡ rows → least_bad Part false rows ≡ None → every_line is_inner forest ≡ true }
{}

/// Where no replicator is to stand, a good forest has none.
pub fn good_plain_lines_have_no_replicator()
    ensures plain { (rows : List Laid) (forest : Forest) → lines_at 0 forest ≡ rows → least_bad Plain false rows ≡ None → every_line is_single forest ≡ true }
    ensures part { (rows : List Laid) (forest : Forest) → lines_at 1 forest ≡ rows → least_bad Part false rows ≡ None → every_line is_single forest ≡ true }
{}

/// Among good lines no declaration stands among the choices of an IF or the alternatives of an ALT.
pub fn good_options_declare_nothing()
    ensures { (f : Frame) (more : Bool) (level : ℕ) (rows : List Laid) (forest : Forest) → lines_at level forest ≡ rows → least_bad f more rows ≡ None → options_declare_nothing forest ≡ true }
{}
