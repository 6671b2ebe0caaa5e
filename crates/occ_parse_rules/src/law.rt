ghost use Rattle.std.specs.Prelude.{◌≡◌, ◌≤◌, ℕ, Bool, true, List, None};
ghost use Rattle.std.specs.List.{list_all};
ghost use Rattle.occ_parse_rules.specs.Forest.{Forest};
ghost use Rattle.occ_parse_rules.specs.Judging.{first_fault};
ghost use Rattle.occ_parse_rules.specs.Limits.{bits_fault, bits_in_scope, copied_lines};
ghost use Rattle.occ_parse_rules.specs.Unrolled.{Numbers, params_named, slot_process};
ghost use Rattle.occ_parse_forms.specs.declared.form.Param.{Param};
ghost use Rattle.occ_parse_rules.specs.Agreement.{Known, IsOneToOne};
ghost use Rattle.occ_parse_rules.specs.Passing.{shape_passes, symbol_passes};
ghost use Rattle.occ_parse_rules.specs.Sound.{are_placed, is_sound};
ghost use Rattle.occ_parse_forms.specs.Lines.{IsForm};
ghost use Rattle.occ_parse_forms.specs.Shape.{Shape};
ghost use Rattle.occ_parse_forms.specs.occ_lex.declared.symbol.Symbol.{Symbol};
ghost use Rattle.occ_parse_rules.specs.Programs.{IsInOrderWith, KeepsTypes, param_scope};
ghost use Rattle.occ_meaning.specs.occ_syntax.Counts.{bits_of_scope, most_bits};

/// Where no line of a program has a fault of names, types or directions, the program that its lines stand for keeps names,
/// types and directions. The table of names has one number for each place that is declared, and no two places have one number.
pub fn lines_in_order_keep_types()
    ensures { (D : Known) (N : Numbers) → IsOneToOne D N → (params : List Param) (below : Forest) → IsInOrderWith D params below
        → KeepsTypes N params below }
{}

/// Where the parameters have at most 24 bits and no declaration brings more than 24 bits into scope, no place of the program
/// that the lines stand for has more than 24 bits of variables in scope.
pub fn scopes_stay_small()
    ensures { (N : Numbers) (params : List Param) (below : Forest) → are_placed below ≡ true → bits_in_scope (param_scope params) ≤ 24
        → first_fault bits_fault (param_scope params) (param_scope params) (copied_lines below) ≡ None
        → most_bits (slot_process N (param_scope params) below) (bits_of_scope (params_named N params)) ≤ 24 }
{}

/// All names and widths that the form of a line speaks of stand in its symbols: where the names of the symbols pass a test, and
/// their widths are widths, those of the form do, too; and then the form is sound.
pub fn forms_say_what_their_symbols_say()
    ensures passes { (test : ℕ → Bool) (symbols : List Symbol) (s : Shape) → IsForm symbols s → list_all (symbol_passes test) symbols ≡ true
        → shape_passes test s ≡ true }
    ensures sound { (test : ℕ → Bool) (symbols : List Symbol) (s : Shape) → IsForm symbols s → shape_passes test s ≡ true → is_sound s ≡ true }
{}
