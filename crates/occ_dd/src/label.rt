ghost use Rattle.std.specs.Prelude.{◌≡◌, true};
ghost use Rattle.occ_dd.specs.Label.{exact_bool, exact_option};

use std::hash::Hash;

/// What a terminal of a diagram holds. Labels that compare as equal are the same label.
pub trait Label: Copy + Eq + Ord + Hash {
    ghost exact: { (x y : Self) → Self.eq x y ≡ true → x ≡ y };
}

impl Label for bool {
    ghost exact = { exact_bool };
}

impl<L: Label> Label for Option<L> {
    ghost exact = { exact_option L.eq L.exact };
}
