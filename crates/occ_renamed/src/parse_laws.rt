//! Lines under other names stand for the same program under other names. Each law here is the contract of a function that does nothing.

ghost use Rattle.std.specs.Prelude.{ℕ, ◌≡◌, List};
ghost use Rattle.occ_replay_rules.specs.occ_lex.declared.symbol.Symbol.{Symbol};
ghost use Rattle.occ_replay_rules.specs.occ_meaning.Rename.{renamed};
ghost use Rattle.occ_replay_rules.specs.occ_parse_forms.declared.form.Param.{Param};
ghost use Rattle.occ_replay_rules.specs.occ_parse_forms.Lines.{IsForm};
ghost use Rattle.occ_replay_rules.specs.occ_parse_forms.Shape.{Shape};
ghost use Rattle.occ_renamed.specs.Renamed.{forest_renamed, kinds_renamed, params_renamed, places_renamed, shape_renamed, sorts_renamed, symbols_renamed};
ghost use Rattle.occ_renamed.specs.Standing.{IsNumbered, IsOneForOne};
ghost use Rattle.occ_replay_rules.specs.occ_parse_rules.Forest.{Forest};
ghost use Rattle.occ_replay_rules.specs.occ_parse_rules.Judging.{first_fault};
ghost use Rattle.occ_replay_rules.specs.occ_parse_rules.Limits.{bits_fault, count_fault};
ghost use Rattle.occ_replay_rules.specs.occ_parse_rules.Names.{name_fault};
ghost use Rattle.occ_replay_rules.specs.occ_parse_rules.Places.{Sorts};
ghost use Rattle.occ_replay_rules.specs.occ_parse_rules.Types.{direction_fault, type_fault};
ghost use Rattle.occ_replay_rules.specs.occ_parse_rules.Unrolled.{Numbers, params_named, slot_process};
ghost use Rattle.occ_replay_rules.specs.occ_parse_rules.Programs.{param_scope};
ghost use Rattle.occ_replay_rules.specs.occ_parse_unroll.Elements.{program_places};

/// Renaming commutes with reading: where symbols read as a form, the renamed symbols read as the renamed form. No two names have one new
/// name, and a second such map leads the names of the symbols back.
pub fn forms_are_renamed()
    ensures { (f back : ℕ → ℕ) (symbols : List Symbol) (s : Shape) → IsOneForOne f → IsOneForOne back
        → symbols_renamed back (symbols_renamed f symbols) ≡ symbols → IsForm symbols s
        → IsForm (symbols_renamed f symbols) (shape_renamed f s) }
{}

/// Lines under other names speak of the same places under other names, in the same order.
pub fn places_are_renamed()
    ensures { (f : ℕ → ℕ) (params : List Param) (below : Forest) → IsOneForOne f
        → program_places (params_renamed f params) (forest_renamed f below) ≡ places_renamed f (program_places params below) }
{}

/// The lines of a program, under other names, stand for the program under other names, where its places are numbered so.
pub fn programs_are_renamed()
    ensures params { (f : ℕ → ℕ) (N M : Numbers) (params : List Param) (below : Forest) → IsOneForOne f → IsNumbered f N M params below
        → params_named M (params_renamed f params) ≡ kinds_renamed f (params_named N params) }
    ensures body { (f : ℕ → ℕ) (N M : Numbers) (params : List Param) (below : Forest) → IsOneForOne f
        → IsNumbered f N M params below
        → slot_process M (param_scope (params_renamed f params)) (forest_renamed f below)
        ≡ renamed (slot_process N (param_scope params) below) f }
{}

/// Lines under other names have the faults of names, types and directions, of counts and of bits in scope that they had, on the same
/// lines.
pub fn faults_are_renamed()
    ensures names { (f : ℕ → ℕ) (Γ : Sorts) (lines : Forest) → IsOneForOne f
        → first_fault name_fault (sorts_renamed f Γ) (sorts_renamed f Γ) (forest_renamed f lines) ≡ first_fault name_fault Γ Γ lines }
    ensures types { (f : ℕ → ℕ) (Γ : Sorts) (lines : Forest) → IsOneForOne f
        → first_fault type_fault (sorts_renamed f Γ) (sorts_renamed f Γ) (forest_renamed f lines) ≡ first_fault type_fault Γ Γ lines }
    ensures directions { (f : ℕ → ℕ) (Γ : Sorts) (lines : Forest) → IsOneForOne f
        → first_fault direction_fault (sorts_renamed f Γ) (sorts_renamed f Γ) (forest_renamed f lines)
        ≡ first_fault direction_fault Γ Γ lines }
    ensures counts { (f : ℕ → ℕ) (Γ : Sorts) (lines : Forest) → IsOneForOne f
        → first_fault count_fault (sorts_renamed f Γ) (sorts_renamed f Γ) (forest_renamed f lines) ≡ first_fault count_fault Γ Γ lines }
    ensures bits { (f : ℕ → ℕ) (Γ : Sorts) (lines : Forest) → IsOneForOne f
        → first_fault bits_fault (sorts_renamed f Γ) (sorts_renamed f Γ) (forest_renamed f lines) ≡ first_fault bits_fault Γ Γ lines }
{}
