//! Neither what a program means nor its normal text rests on the numbers of its names. Each law is the contract of a function that does
//! nothing.

ghost use Rattle.std.specs.Prelude.{ℕ, ◌≡◌, ◌<◌, ◌^◌, ◌↔◌, List, Ok, length};
ghost use Rattle.occ_nform.specs.occ_base.Names.{IsDistinct};
ghost use Rattle.occ_nform.specs.occ_base.declared.names.Name.{Name};
ghost use Rattle.occ_renamed.specs.occ_meaning.Rename.{renamed};
ghost use Rattle.occ_nform.specs.Written.{IsNormalText};
ghost use Rattle.occ_read_renamed.specs.Read.{IsReadWith};
ghost use Rattle.occ_nform.specs.occ_nform_table.Normal.{Parts, text_read};
ghost use Rattle.occ_renamed.specs.Renamed.{kinds_renamed};
ghost use Rattle.occ_renamed.specs.Standing.{IsOneForOne};
ghost use Rattle.occ_read_renamed.specs.Readings.{IsRenumbering};
ghost use Rattle.occ_nform.specs.occ_syntax.Same.{SAME};
ghost use Rattle.occ_nform.specs.occ_syntax.Scopes.{environment};
ghost use Rattle.occ_nform.specs.occ_syntax.Tree.{Tree};
ghost use Rattle.occ_nform.specs.occ_syntax.declared.scope.Kind.{Kind};

/// The normal text of a program is the normal text of the program under other numbers, by a table in which each name has its text under
/// its other number. A text in memory has fewer than 2 ^ 64 bytes.
pub fn normal_texts_are_renamed()
    ensures { (f : ℕ → ℕ) (names other : List (List ℕ)) (params : List (Name × Kind)) (p : Tree) (text : List ℕ) → IsDistinct other
        → IsRenumbering f names other → length text < 2 ^ 64 → IsNormalText names params p text
        → IsNormalText other (kinds_renamed f params) (renamed p f) text }
{}

/// Two programs mean the same exactly where they do under other names, where no two names have one other name.
pub fn renamed_programs_mean_the_same()
    ensures { (f : ℕ → ℕ) (params : List (Name × Kind)) (p q : Tree) → IsOneForOne f
        → SAME (environment params) p q ↔ SAME (environment (kinds_renamed f params)) (renamed p f) (renamed q f) }
{}

/// A text that reads as a normal table with one table of names reads as one with any other table of names, and has as many rows. A text in
/// memory has fewer than 2 ^ 64 bytes.
pub fn normal_texts_need_no_names()
    ensures { (names other : List (List ℕ)) (text : List ℕ) (t : Parts) → IsDistinct names → IsDistinct other → length text < 2 ^ 64
        → text_read names text ≡ Ok t → IsReadWith other text (length t.rows) }
{}
