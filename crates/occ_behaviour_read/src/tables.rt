ghost use Rattle.occ_syntax.specs.occ_base.Names.{IsDistinct};
ghost use Rattle.occ_syntax.specs.occ_base.declared.names.Name.{Name};
ghost use Rattle.occ_nform_read.specs.occ_lex.Rows.{rows};
ghost use Rattle.occ_nform_read.specs.occ_nform_table.Behaviours.{Stands};
ghost use Rattle.occ_nform_read.specs.occ_nform_table.Normal.{Parts, table_fault, text_read};
ghost use Rattle.occ_nform_read.specs.occ_nform_table.Tables.{IsInterface, are_params};
ghost use Rattle.occ_nform_read.specs.occ_nform_table.declared.table.TableFault.{TableFault};
ghost use Rattle.occ_syntax.specs.Tree.{Tree};
ghost use Rattle.occ_syntax.specs.declared.scope.Kind.{Kind};
ghost use Rattle.occ_behaviour_read.specs.Tables.{IsTableFault, IsTableText, IsTextOf};
ghost use Rattle.std.specs.Prelude.{[], ℕ, List, None, Ok, Err, true, length, ◌<◌, ◌≡◌, ◌^◌, ◌↔◌};

/// A text is read as a normal table exactly where it is the text of the table, and the table has no fault.
pub fn normal_texts_are_read_as_written()
    ensures { (text : List ℕ) (t : Parts) → length text < 2 ^ 32
        → (text_read [] text ≡ Ok t) ↔ (IsTableText t (rows text) × (table_fault t ≡ None)) }
{}

/// A text is refused for a fault exactly where this is the first line behind which no table's text goes on, or, where it is the text of a
/// table, the first fault of the table.
pub fn faults_are_those_of_what_is_written()
    ensures { (text : List ℕ) (why : TableFault) → length text < 2 ^ 32 → (text_read [] text ≡ Err why) ↔ IsTableFault (rows text) why }
{}

/// A text reads with these names as a table that stands for a program with these parameters exactly where it is the text of a table of the
/// program. A text in memory has fewer than 2 ^ 64 bytes.
pub fn texts_of_programs_are_those_of_their_tables()
    ensures { (names : List (List ℕ)) (params : List (Name × Kind)) (p : Tree) (text : List ℕ) → IsDistinct names → IsInterface names params
        → are_params names [] params ≡ true → length text < 2 ^ 64
        → ((t : Parts) × (text_read names text ≡ Ok t) × (t.names ≡ names) × (t.params ≡ params) × Stands params t.rows t.states p)
        ↔ IsTextOf names params p text }
{}
