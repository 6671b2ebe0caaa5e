//! That a text has one reading.

ghost use Rattle.std.specs.Prelude.{◌≡◌, ℕ, List, map};
ghost use Rattle.occ_script.specs.declared.fault.ScriptFault.{ScriptFault as Fault};
ghost use Rattle.occ_script.specs.declared.script.Order.{Order};
ghost use Rattle.occ_script.specs.declared.script.Script.{Script};
ghost use Rattle.occ_script.specs.Orders.{IsOrders, IsOrdersFault};
ghost use Rattle.occ_script.specs.Refusals.{IsScriptFault};
ghost use Rattle.occ_script.specs.Scripts.{IsScript};
ghost use Rattle.occ_script.specs.Shown.{shown, shown_order};

use occ_law::names_are_distinct;
use occ_parse_part::{one_form, one_reading_of_a_part};

/// A text has one reading with these names in the table: it is one script as far as it can be seen, with one table of names behind
/// it, or it has one first fault, and never both.
pub fn one_script()
    ensures script { (text : List ℕ) (old new other : List (List ℕ)) (s t : Script) → IsScript text old new s
        → IsScript text old other t → (shown s ≡ shown t) × (new ≡ other) }
    ensures fault { (text : List ℕ) (old : List (List ℕ)) (e f : Fault) → IsScriptFault text old e → IsScriptFault text old f → e ≡ f }
    ensures apart { (text : List ℕ) (old new : List (List ℕ)) (s : Script) (e : Fault) → IsScript text old new s
        → IsScriptFault text old e → ⊥ }
{
    one_form();
    one_reading_of_a_part();
    names_are_distinct();
}

/// The same of orders: with these names in the table a text is one list of orders as far as they can be seen, with one table of names
/// behind it, or it has one first fault, and never both.
pub fn one_orders()
    ensures orders { (text : List ℕ) (old new other : List (List ℕ)) (xs ys : List Order) → IsOrders text old new xs
        → IsOrders text old other ys → (map shown_order xs ≡ map shown_order ys) × (new ≡ other) }
    ensures fault { (text : List ℕ) (old : List (List ℕ)) (e f : Fault) → IsOrdersFault text old e → IsOrdersFault text old f → e ≡ f }
    ensures apart { (text : List ℕ) (old new : List (List ℕ)) (orders : List Order) (e : Fault) → IsOrders text old new orders
        → IsOrdersFault text old e → ⊥ }
{
    one_form();
    one_reading_of_a_part();
    names_are_distinct();
}
