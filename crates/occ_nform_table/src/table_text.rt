ghost use Rattle.occ_lex.specs.occ_base.Names.{IsDistinct};
ghost use Rattle.occ_lex.specs.occ_base.declared.names.Name.{Name};
ghost use Rattle.occ_syntax.specs.declared.scope.Kind.{Kind};
ghost use Rattle.occ_nform_table.specs.Judging.{row_text};
ghost use Rattle.occ_nform_table.specs.Normal.{Parts, text_read};
ghost use Rattle.occ_nform_table.specs.Tables.{are_params, IsInterface, IsNormal, IsRowOf};
ghost use Rattle.occ_nform_table.specs.Texts.{table_text};
ghost use Rattle.occ_nform_table.specs.declared.table.TableRow.{TableRow};
ghost use Rattle.std.specs.Prelude.{[], length, List, Ok, true, ℕ, ◌^◌, ◌≡◌, ◌≤◌};

/// The text of a normal table reads as that table. Row numbers are written in at most 64 digits.
pub fn a_normal_table_reads_back()
    ensures { (t : Parts) → IsDistinct t.names → IsNormal t → length t.rows ≤ 10 ^ 64 → text_read t.names (table_text t.names t.params t.rows t.states) ≡ Ok t }
{}

/// Two rows of one interface have one text only where they are the same.
/// Row numbers are written in at most 64 digits.
pub fn one_text_one_row()
    ensures { (names : List (List ℕ)) (params : List (Name × Kind)) (n m : ℕ) (one two : TableRow) → IsDistinct names → IsInterface names params → are_params names [] params ≡ true
        → n ≤ 10 ^ 64 → m ≤ 10 ^ 64 → IsRowOf params n one → IsRowOf params m two → row_text names one ≡ row_text names two → one ≡ two }
{}
