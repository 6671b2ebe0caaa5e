ghost use Rattle.std.specs.Prelude.{ℕ, List};
ghost use Rattle.occ_print.specs.occ_base.declared.names.Name.{Name};
ghost use Rattle.occ_parse.specs.occ_parse_rules.Places.{Place};
ghost use Rattle.occ_print_back.specs.Back.{IsNarrow, ReadsBack};
ghost use Rattle.occ_print_back.specs.Program.{IsPrintable};
ghost use Rattle.occ_print.specs.occ_syntax.Tree.{Tree};
ghost use Rattle.occ_print.specs.occ_syntax.declared.scope.Kind.{Kind};

/// The text of a printed program reads, as the program behind the steps of a script and with the same table of names, as
/// that program: where its names are those of the table, names, types and directions are kept, its channel parameters are
/// marked, and no line has more than 4,096 tokens.
pub fn printed_programs_read_back()
    ensures { (names : List (List ℕ)) (P : ℕ → Place) (name : ℕ) (params : List (Name × Kind)) (body : Tree) → IsPrintable names P name params body
        → IsNarrow name params body → ReadsBack names P name params body }
{}
