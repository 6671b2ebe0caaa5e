ghost use Rattle.std.specs.Prelude.{ℕ};
ghost use Rattle.occ_weave.specs.States.{JoinsStates};

/// Where the written bits are those of whole variables, the one process has changed these alone and the
/// other has changed none of them, an end that is joined by bits is the join of the two final states: each
/// variable has its value of the first where that changed it, and otherwise that of the second.
pub fn joined_ends_are_joined_states()
    ensures { (written scope : ℕ) (masks : ℕ → ℕ) (s x1 x2 x : ℕ) → JoinsStates written scope masks s x1 x2 x }
{}
