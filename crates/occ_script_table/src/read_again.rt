//! A text reads as before where the table of names has all that reading brings in. Each law is the contract of a function that does
//! nothing.

ghost use Rattle.std.specs.Prelude.{ℕ, List};
ghost use Rattle.occ_script_back.specs.occ_base.declared.names.Name.{Name};
ghost use Rattle.occ_script_back.specs.occ_lex.Symbols.{Extends};
ghost use Rattle.occ_script_back.specs.occ_parse.declared.bound.Bound.{Bound};
ghost use Rattle.occ_script_back.specs.occ_parse.declared.fault.ParseFault.{ParseFault};
ghost use Rattle.occ_script_back.specs.occ_parse.Reading.{IsRead, IsRefused, names_in};
ghost use Rattle.occ_script_back.specs.occ_script.declared.fault.ScriptFault.{ScriptFault};
ghost use Rattle.occ_script_back.specs.occ_script.declared.script.Script.{Script};
ghost use Rattle.occ_script_back.specs.occ_script.Refusals.{IsScriptFault};
ghost use Rattle.occ_script_back.specs.occ_script.Scripts.{IsScript};
ghost use Rattle.occ_script_table.specs.Reached.{IsSoFrom};
ghost use Rattle.occ_script_back.specs.occ_syntax.declared.scope.Kind.{Kind};
ghost use Rattle.occ_script_back.specs.occ_syntax.Tree.{Tree};

/// A text that reads as a program reads as that program with each table that begins with the one that reading left, and leaves that
/// table as it is. A text that is refused is refused for the same fault with each table that begins with the names of its lines.
pub fn programs_read_again()
    ensures read { (b : Bound) (text : List ℕ) (old new table : List (List ℕ)) (name : Name) (params : List (Name × Kind)) (body : Tree) (numbers : List ℕ)
        → IsRead b text old new name params body numbers → Extends new table → IsRead b text table table name params body numbers }
    ensures refused { (b : Bound) (text : List ℕ) (old table : List (List ℕ)) (fault : ParseFault) → IsRefused b text old fault
        → Extends (names_in text old) table → IsRefused b text table fault }
{}

/// A text that is a script is that script with each table that begins with the one that reading left, and leaves that table as it is.
/// A text that is refused is refused for the same fault with each table that begins with one that reading reached.
pub fn scripts_read_again()
    ensures read { (text : List ℕ) (old new table : List (List ℕ)) (script : Script) → IsScript text old new script → Extends new table
        → IsScript text table table script }
    ensures refused { (text : List ℕ) (old : List (List ℕ)) (fault : ScriptFault) → IsScriptFault text old fault
        → IsSoFrom old (λ table. IsScriptFault text table fault) }
{}
