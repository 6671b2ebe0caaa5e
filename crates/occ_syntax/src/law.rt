//! A few laws of the definitions, which show that they hold together.

ghost use Rattle.occ_syntax.specs.Tree.{Tree, skip, stop, seq, select, no_tree, and_tree, no_case};
ghost use Rattle.occ_syntax.specs.Scopes.{Environment};
ghost use Rattle.occ_syntax.specs.Same.{SAME};

/// SEQ of no parts is SKIP.
pub fn empty_seq_is_skip()
    ensures { (Γ : Environment) → SAME Γ (seq no_tree) skip }
{}

/// SEQ of one part is that part.
pub fn seq_of_one_is_that_part()
    ensures { (Γ : Environment) (p : Tree) → SAME Γ (seq (and_tree p no_tree)) p }
{}

/// IF without choices is STOP.
pub fn empty_if_is_stop()
    ensures { (Γ : Environment) → SAME Γ (select no_case) stop }
{}
