//! What orders and expansions make of a program can be written: the steps are moves that are written from the table of names that reading
//! left. These are laws, and no code: each is a function without a body of its own whose contract is the law.

ghost use Rattle.std.specs.List.{AllByRecursion};
ghost use Rattle.std.specs.Prelude.{ℕ, ◌≡◌, List, Some, true};
ghost use Rattle.occ_engine_known.specs.occ_base.Names.{IsDistinct};
ghost use Rattle.occ_engine_known.specs.occ_engine.Moved.{moves_of, orders_of};
ghost use Rattle.occ_renamed.specs.occ_replay_rules.Expansion.{IsExpanded};
ghost use Rattle.occ_renamed.specs.occ_replay_rules.Moves.{Moves};
ghost use Rattle.occ_renamed.specs.occ_replay_rules.Orders.{Follows};
ghost use Rattle.occ_engine_written.specs.First.{AreWritten, IsFirstProgram};
ghost use Rattle.occ_renamed.specs.occ_lex.Growth.{GrowsByNames};
ghost use Rattle.occ_renamed.specs.occ_parse.Known.{NamesAreKnown};
ghost use Rattle.occ_renamed.specs.occ_parse.declared.bound.Bound.{Bound};
ghost use Rattle.occ_renamed.specs.occ_parse.Limits.{is_limited};
ghost use Rattle.occ_renamed.specs.occ_parse.Reading.{IsRead};
ghost use Rattle.occ_engine_known.specs.occ_script.declared.script.Order.{Order};
ghost use Rattle.occ_engine_known.specs.occ_script.Orders.{IsOrders};
ghost use Rattle.occ_renamed.specs.occ_script_lines.Texts.{path_of};
ghost use Rattle.occ_engine_known.specs.occ_script_write.declared.writing.Done.{Done};
ghost use Rattle.occ_engine_known.specs.occ_script_write.Text.{IsWritable};
ghost use Rattle.occ_script_table.specs.occ_script_back.Said.{IsSaid, IsShortPath};
ghost use Rattle.occ_engine_known.specs.occ_syntax.declared.scope.Program.{Program};
ghost use Rattle.occ_engine_known.specs.occ_syntax.View.{tree};
ghost use Rattle.occ_renamed.specs.occ_usage.Accepted.{IsTyped};

use occ_engine_known::{
    expansions_have_known_names, followed_orders_have_known_names, kept_parts_have_known_names,
    names_stay_below, read_programs_have_known_names,
};
use occ_renamed::{expansions_make_moves, orders_make_moves};
use occ_script_table::{
    no_names_are_places, orders_leave_places, programs_leave_places,
    read_programs_print_within_levels,
};

/// A path that a text writes has numbers below 2 ^ 32.
pub fn paths_of_texts_are_short()
    ensures { (text path : List ℕ) → path_of text ≡ Some path → IsShortPath path }
{}

/// The parameters of a program that was read, and the names that it declares, have texts in the table that reading left.
pub fn read_programs_declare_known_names()
    ensures { (b : Bound) (text : List ℕ) (old new : List (List ℕ)) (program : Program) (lines : List ℕ)
        → IsRead b text old new program.name program.params (tree program.body) lines → NamesAreKnown new program }
{}

/// A program that was read within the limits keeps names, types, directions and limits.
pub fn read_programs_are_typed()
    ensures { (b : Bound) (text : List ℕ) (old new : List (List ℕ)) (program : Program) (lines : List ℕ)
        → IsRead b text old new program.name program.params (tree program.body) lines → IsDistinct new → is_limited b ≡ true
        → IsTyped program }
{}

/// Orders that are followed from a program that was read make moves that are written from the table that reading the orders left.
pub fn followed_orders_are_written()
    ensures { (text : List ℕ) (names new : List (List ℕ)) (orders : List Order) (from to : Program) (steps : List Done)
        → IsFirstProgram names from → IsOrders text names new orders
        → Follows from.params (tree from.body) (orders_of orders) (moves_of steps) (tree to.body)
        → to.name ≡ from.name → to.params ≡ from.params → AreWritten new from steps to }
{
    names_stay_below();
    no_names_are_places();
    orders_leave_places();
    programs_leave_places();
    orders_make_moves();
    kept_parts_have_known_names();
    followed_orders_have_known_names();
    read_programs_have_known_names();
    read_programs_print_within_levels();
}

/// An expansion in a program that was read makes moves that are written from the table that reading left.
pub fn expansions_are_written()
    ensures { (names : List (List ℕ)) (path : List ℕ) (from to : Program) (steps : List Done)
        → IsFirstProgram names from → IsShortPath path
        → IsExpanded from.params (tree from.body) path (moves_of steps) (tree to.body)
        → to.name ≡ from.name → to.params ≡ from.params → AreWritten names from steps to }
{
    no_names_are_places();
    programs_leave_places();
    expansions_make_moves();
    kept_parts_have_known_names();
    expansions_have_known_names();
    read_programs_have_known_names();
    read_programs_print_within_levels();
}

/// Moves from a program that was read are written from a table that has grown from the one that reading left by names of the language,
/// where the names of their parts stand in it, and their lines can be read.
pub fn known_moves_are_written()
    ensures { (names new : List (List ℕ)) (from to : Program) (steps : List Done) → IsFirstProgram names from → GrowsByNames names new
        → AllByRecursion (IsWritable new) steps → AllByRecursion IsSaid steps
        → Moves from.params (tree from.body) (moves_of steps) (tree to.body)
        → to.name ≡ from.name → to.params ≡ from.params → AreWritten new from steps to }
{
    names_stay_below();
    no_names_are_places();
    programs_leave_places();
    kept_parts_have_known_names();
    read_programs_have_known_names();
    read_programs_print_within_levels();
}
