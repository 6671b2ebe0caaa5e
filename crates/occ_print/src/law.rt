ghost use Rattle.std.specs.Prelude.{ℕ, ◌<◌, ◌↔◌};
ghost use Rattle.occ_print.specs.Known.{PartIsKnown};
ghost use Rattle.occ_print.specs.Greatest.{greatest};
ghost use Rattle.occ_syntax.specs.Tree.{Tree};

/// All names of a part stand in a table of so many names, of which there is one, exactly where the greatest does.
pub fn parts_are_known_up_to_their_greatest_name()
    ensures { (n : ℕ) (p : Tree) → 0 < n → (greatest p 0 < n) ↔ PartIsKnown n p }
{}
