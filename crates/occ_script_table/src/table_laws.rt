//! The table of names that reading leaves is a table of places: each text in it is a name, or an element of an array of one.

ghost use Rattle.std.specs.Prelude.{ℕ, [], List};
ghost use Rattle.std.specs.List.{AllByRecursion};
ghost use Rattle.occ_script_back.specs.occ_base.declared.names.Name.{Name};
ghost use Rattle.occ_script_back.specs.occ_lex.Placed.{IsLineOf};
ghost use Rattle.occ_script_back.specs.occ_lex.declared.token.Line.{Line};
ghost use Rattle.occ_script_back.specs.occ_lex.Symbols.{with_names_of_all};
ghost use Rattle.occ_script_back.specs.occ_parse.Reading.{IsRead};
ghost use Rattle.occ_script_back.specs.occ_parse.declared.bound.Bound.{Bound};
ghost use Rattle.occ_script_back.specs.occ_parse_rules.Places.{Place};
ghost use Rattle.occ_script_back.specs.occ_print_back.Placed.{IsTable};
ghost use Rattle.occ_script_back.specs.Tables.{Grows};
ghost use Rattle.occ_script_back.specs.occ_script.Orders.{IsOrders};
ghost use Rattle.occ_script_back.specs.occ_script.Scripts.{IsScript};
ghost use Rattle.occ_script_back.specs.occ_script.declared.script.Order.{Order};
ghost use Rattle.occ_script_back.specs.occ_script.declared.script.Script.{Script};
ghost use Rattle.occ_script_table.specs.Tables.{HasPlaces};
ghost use Rattle.occ_script_back.specs.occ_syntax.Tree.{Tree};
ghost use Rattle.occ_script_back.specs.occ_syntax.declared.scope.Kind.{Kind};

/// The table without names is one of places.
pub fn no_names_are_places()
    ensures { (P : ℕ → Place) → IsTable [] P }
{}

/// A table of places with the names of lines of a text is again one, in which the names that it had have their places.
pub fn names_of_lines_are_places()
    ensures { (names : List (List ℕ)) (P : ℕ → Place) (text : List ℕ) (lines : List Line) → IsTable names P
        → AllByRecursion (IsLineOf text) lines → Grows names P (with_names_of_all text names lines) }
{}

/// Reading a program with a table of places leaves such a table, in which the names that it had have their places.
pub fn programs_leave_places()
    ensures { (b : Bound) (text : List ℕ) (old new : List (List ℕ)) (P : ℕ → Place) (name : Name) (params : List (Name × Kind))
        (body : Tree) (numbers : List ℕ) → IsTable old P → IsRead b text old new name params body numbers → Grows old P new }
{}

/// The same of reading orders.
pub fn orders_leave_places()
    ensures { (text : List ℕ) (old new : List (List ℕ)) (P : ℕ → Place) (orders : List Order) → IsTable old P
        → IsOrders text old new orders → Grows old P new }
{}

/// The same of reading a script.
pub fn scripts_leave_places()
    ensures { (text : List ℕ) (old new : List (List ℕ)) (P : ℕ → Place) (script : Script) → IsTable old P
        → IsScript text old new script → Grows old P new }
{}

/// So the table that reading a program leaves, where it began empty, is one of places, and the table that reading orders behind it
/// leaves; and that of a script.
pub fn tables_have_places()
    ensures program { (b : Bound) (text : List ℕ) (new : List (List ℕ)) (name : Name) (params : List (Name × Kind)) (body : Tree)
        (numbers : List ℕ) → IsRead b text [] new name params body numbers → HasPlaces new }
    ensures orders { (text : List ℕ) (old new : List (List ℕ)) (orders : List Order) → HasPlaces old → IsOrders text old new orders
        → HasPlaces new }
    ensures script { (text : List ℕ) (new : List (List ℕ)) (script : Script) → IsScript text [] new script → HasPlaces new }
{}
