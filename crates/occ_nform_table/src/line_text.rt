ghost use Rattle.std.specs.Prelude.{◌≡◌, ◌<◌, ◌^◌, ℕ, List, Ok, length};
ghost use Rattle.occ_nform_table.specs.Normal.{Parts, text_read};
ghost use Rattle.occ_nform_table.specs.Tables.{IsNormal};
ghost use Rattle.occ_nform_table.specs.Texts.{table_text};

/// A text that is read as a table is the text of that table, and the table is normal. A text in memory has fewer than
/// 2 ^ 64 bytes; beyond that the numbers of rows could have more digits than numerals are written with.
pub fn a_normal_text_is_its_tables()
    ensures { (names : List (List ℕ)) (text : List ℕ) (t : Parts) → length text < 2 ^ 64 → text_read names text ≡ Ok t
        → IsNormal t × (text ≡ table_text t.names t.params t.rows t.states) }
{}
