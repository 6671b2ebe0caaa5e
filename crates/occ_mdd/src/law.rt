ghost use Rattle.occ_mdd.specs.Maps.{IsCanonical};

use crate::Maps;
use occ_dd::Label;

/// Two numbers of one table are equal exactly where the functions are equal (Bryant 1986).
pub fn maps_have_one_number<L: Label>(_maps: &Maps<L>)
    ensures { IsCanonical _maps.now }
{}
