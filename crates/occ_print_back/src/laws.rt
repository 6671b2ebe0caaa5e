ghost use Rattle.std.specs.Prelude.{◌≡◌, ℕ, List, None, [], false, length};
ghost use Rattle.occ_print.specs.occ_base.declared.names.Name.{Name};
ghost use Rattle.occ_parse.specs.occ_parse_rules.Forest.{lines_at};
ghost use Rattle.occ_parse.specs.occ_parse_rules.Judging.{first_fault};
ghost use Rattle.occ_parse.specs.occ_parse_rules.Names.{name_fault};
ghost use Rattle.occ_parse.specs.occ_parse_rules.Places.{Place};
ghost use Rattle.occ_parse.specs.occ_parse_rules.Types.{direction_fault, type_fault};
ghost use Rattle.occ_parse.specs.occ_parse_rules.Unrolled.{Numbers, params_named, slot_process};
ghost use Rattle.occ_parse.specs.occ_parse_layout.Layout.{least_bad};
ghost use Rattle.occ_parse.specs.occ_parse_layout.declared.placed.Frame.TheVariants.{Plain};
ghost use Rattle.occ_print.specs.Lines.{program_lines};
ghost use Rattle.occ_print.specs.Spelled.{program_text};
ghost use Rattle.occ_print_back.specs.Formed.{AreFormed};
ghost use Rattle.occ_print_back.specs.Program.{IsPrintable, body_forest, header_scope, params_said, program_forest};
ghost use Rattle.occ_print_back.specs.Read.{ReadsAs};
ghost use Rattle.occ_print_back.specs.Scoped.{IsNumbered};
ghost use Rattle.occ_print.specs.occ_syntax.Tree.{Tree};
ghost use Rattle.occ_print.specs.occ_syntax.declared.scope.Kind.{Kind};

/// The text of a printed program reads as its lines, each with its symbols, and leaves the table of names as it is.
pub fn printed_text_has_its_lines()
    ensures { (names : List (List ℕ)) (P : ℕ → Place) (name : ℕ) (params : List (Name × Kind)) (body : Tree) → IsPrintable names P name params body
        → ReadsAs (program_text names name params body) names P 1 (program_lines name params body) }
{}

/// Each line of a printed program is spelled as the form of what it says, whatever the number of its header's line.
pub fn printed_lines_have_their_forms()
    ensures { (names : List (List ℕ)) (P : ℕ → Place) (N : Numbers) (number name : ℕ) (params : List (Name × Kind)) (body : Tree)
        → IsNumbered (length names) P N → IsPrintable names P name params body
        → AreFormed P number (program_lines name params body) (lines_at 0 (program_forest P number name params body)) }
{}

/// No line of a printed program stands where it may not, or lacks what it needs.
pub fn printed_lines_are_well_laid_out()
    ensures { (P : ℕ → Place) (number name : ℕ) (params : List (Name × Kind)) (body : Tree)
        → least_bad Plain false (lines_at 0 (program_forest P number name params body)) ≡ None }
{}

/// The lines of a printed program stand for it: its parameters and its body.
pub fn printed_lines_stand_for_their_program()
    ensures params { (names : List (List ℕ)) (P : ℕ → Place) (N : Numbers) (name : ℕ) (params : List (Name × Kind)) (body : Tree) → IsNumbered (length names) P N
        → IsPrintable names P name params body → params_named N (params_said P params) ≡ params }
    ensures body { (names : List (List ℕ)) (P : ℕ → Place) (N : Numbers) (number name : ℕ) (params : List (Name × Kind)) (body : Tree)
        → IsNumbered (length names) P N → IsPrintable names P name params body
        → slot_process N (header_scope P params) (body_forest P number body) ≡ body }
{}

/// No line of a printed program has a fault of names, types or directions.
pub fn printed_lines_are_in_order()
    ensures names { (names : List (List ℕ)) (P : ℕ → Place) (N : Numbers) (number name : ℕ) (params : List (Name × Kind)) (body : Tree)
        → IsNumbered (length names) P N → IsPrintable names P name params body
        → first_fault name_fault [] [] (program_forest P number name params body) ≡ None }
    ensures types { (names : List (List ℕ)) (P : ℕ → Place) (N : Numbers) (number name : ℕ) (params : List (Name × Kind)) (body : Tree)
        → IsNumbered (length names) P N → IsPrintable names P name params body
        → first_fault type_fault [] [] (program_forest P number name params body) ≡ None }
    ensures directions { (names : List (List ℕ)) (P : ℕ → Place) (N : Numbers) (number name : ℕ) (params : List (Name × Kind)) (body : Tree)
        → IsNumbered (length names) P N → IsPrintable names P name params body
        → first_fault direction_fault [] [] (program_forest P number name params body) ≡ None }
{}
