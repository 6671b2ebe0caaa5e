ghost use Rattle.std.specs.Prelude.{◌≡◌, ◌+◌, ◌++◌, ℕ, List, None, false, length};
ghost use Rattle.occ_script_write.specs.occ_base.declared.names.Name.{Name};
ghost use Rattle.occ_script_write.specs.occ_lex.Rows.{rows};
ghost use Rattle.occ_print_back.specs.occ_parse_layout.Layout.{least_bad};
ghost use Rattle.occ_print_back.specs.occ_parse.Drafts.{limit_fault_of};
ghost use Rattle.occ_print_back.specs.occ_parse.Limits.{frame_of, is_too_long};
ghost use Rattle.occ_print_back.specs.occ_parse.declared.bound.Bound.{Bound};
ghost use Rattle.occ_print_back.specs.occ_parse_rules.Forest.{lines_at};
ghost use Rattle.occ_print_back.specs.occ_parse_rules.Places.{Place};
ghost use Rattle.occ_script_write.specs.occ_print.Spelled.{program_text};
ghost use Rattle.occ_print_back.specs.Back.{ReadsBackFrom};
ghost use Rattle.occ_print_back.specs.Program.{IsPrintable, program_forest};
ghost use Rattle.occ_script_back.specs.Blank.{AreBlankLines};
ghost use Rattle.occ_script_back.specs.Limits.{IsWithin};
ghost use Rattle.occ_script_write.specs.occ_syntax.Tree.{Tree};
ghost use Rattle.occ_script_write.specs.occ_syntax.declared.scope.Kind.{Kind};

/// The lines of a printed program are well laid out and pass no limit, whatever binds its text, where the program is within that.
pub fn printed_programs_keep_limits()
    ensures laid { (b : Bound) (P : ℕ → Place) (number name : ℕ) (params : List (Name × Kind)) (body : Tree)
        → least_bad (frame_of b) false (lines_at 0 (program_forest P number name params body)) ≡ None }
    ensures limits { (b : Bound) (names : List (List ℕ)) (P : ℕ → Place) (number name : ℕ) (params : List (Name × Kind)) (body : Tree)
        → IsPrintable names P name params body → IsWithin b name params body
        → limit_fault_of b (program_forest P number name params body) ≡ None }
{}

/// Behind blank lines, the text of a printed program reads as that program, with the same table of names and with its lines where they
/// stand: as a program of its own, as one in front of the steps of a script or as one behind them, within the limits that bind it there.
pub fn printed_programs_read_back_behind_blank_lines()
    ensures { (b : Bound) (front : List ℕ) (names : List (List ℕ)) (P : ℕ → Place) (name : ℕ) (params : List (Name × Kind)) (body : Tree)
        → AreBlankLines front → IsPrintable names P name params body → IsWithin b name params body
        → is_too_long b (front ++ program_text names name params body) ≡ false
        → ReadsBackFrom b (front ++ program_text names name params body) names P (1 + length (rows front)) name params body }
{}
