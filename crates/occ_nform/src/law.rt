ghost use Rattle.std.specs.Prelude.{true, length, List, ℕ, ◌<◌, ◌^◌, ◌↔◌, ◌≡◌};
ghost use Rattle.occ_syntax.specs.occ_base.Names.{IsDistinct};
ghost use Rattle.occ_syntax.specs.occ_base.declared.names.Name.{Name};
ghost use Rattle.occ_syntax.specs.Same.{SAME};
ghost use Rattle.occ_syntax.specs.Scopes.{environment};
ghost use Rattle.occ_syntax.specs.Tree.{Tree};
ghost use Rattle.occ_syntax.specs.Types.{scope_kept, types_kept};
ghost use Rattle.occ_syntax.specs.declared.scope.Kind.{Kind};
ghost use Rattle.occ_nform.specs.Written.{IsNormalText};
ghost use Rattle.occ_nform_rows.specs.occ_nform_table.Behaviours.{Stands};
ghost use Rattle.occ_nform_rows.specs.occ_nform_table.Tables.{IsNormal};
ghost use Rattle.occ_nform_rows.specs.occ_nform_table.declared.table.TableRow.{TableRow};

/// Two programs with the same parameters have one normal text exactly where they mean the same. A text in memory has
/// fewer than 2 ^ 64 bytes.
pub fn normal_texts_tell_programs_apart()
    ensures { (names : List (List ℕ)) (params : List (Name × Kind)) (p q : Tree) (one two : List ℕ)
        → IsDistinct names → scope_kept params ≡ true → types_kept p (environment params) ≡ true → types_kept q (environment params) ≡ true
        → length one < 2 ^ 64 → length two < 2 ^ 64
        → IsNormalText names params p one → IsNormalText names params q two → (one ≡ two) ↔ SAME (environment params) p q }
{}

/// A program has one normal table with its names and parameters.
pub fn programs_have_one_table()
    ensures { (names : List (List ℕ)) (params : List (Name × Kind)) (p : Tree) (rows others : List TableRow) (states more : List ℕ)
        → scope_kept params ≡ true
        → IsNormal (record { names = names; params = params; rows = rows; states = states })
        → IsNormal (record { names = names; params = params; rows = others; states = more })
        → Stands params rows states p → Stands params others more p → (rows ≡ others) × (states ≡ more) }
{}
