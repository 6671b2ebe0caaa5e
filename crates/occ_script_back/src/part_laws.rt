ghost use Rattle.std.specs.Prelude.{ℕ, List};
ghost use Rattle.std.specs.List.{AllByRecursion};
ghost use Rattle.occ_script_write.specs.occ_base.declared.names.Name.{Name};
ghost use Rattle.occ_script.specs.occ_parse_part.Elements.{with_arrays};
ghost use Rattle.occ_print_back.specs.occ_parse_rules.Places.{Place};
ghost use Rattle.occ_print_back.specs.Placed.{IsTable};
ghost use Rattle.occ_script_back.specs.Back.{LinesAreThere, PartReadsBack};
ghost use Rattle.occ_script_back.specs.Part.{IsPrintablePart, PartIsNarrow};
ghost use Rattle.occ_script_back.specs.Tables.{Grows, IsBase};
ghost use Rattle.occ_script_write.specs.occ_syntax.Tree.{Tree};
ghost use Rattle.occ_script_write.specs.occ_syntax.declared.scope.Kind.{Kind};

/// The text of a printed part has the part's lines, each with its symbols, and leaves the table of names as it is: behind any
/// text, and from any line number on.
pub fn printed_part_has_its_lines()
    ensures { (names : List (List ℕ)) (P : ℕ → Place) (scope : List (Name × Kind)) (part : Tree) (front : List ℕ) (number : ℕ)
        → IsPrintablePart names P scope part → LinesAreThere names P front number part }
{}

/// A table of names, each with its place, with all elements of some of its names is again such a table, in which the names that it
/// had have their places.
pub fn tables_grow_by_elements()
    ensures { (names : List (List ℕ)) (P : ℕ → Place) (arrays : List Name) → IsTable names P
        → AllByRecursion (λ (x : Name). IsBase names x.0) arrays
        → Grows names P (with_arrays names arrays) }
{}

/// The lines of a printed part are read as a part, with the same table of names, behind any text and from any line number on. With
/// the elements of its arrays in the table it stands in its scope for the process that was printed, without a fault.
pub fn printed_parts_read_back()
    ensures { (names : List (List ℕ)) (P : ℕ → Place) (scope : List (Name × Kind)) (part : Tree) (front : List ℕ) (number : ℕ)
        → IsPrintablePart names P scope part → PartIsNarrow part → PartReadsBack names P scope front number part }
{}
