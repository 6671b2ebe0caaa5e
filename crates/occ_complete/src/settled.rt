//! Configurations worked until they wait for events: each leads to an end, or to an ALT of events, acceptances and ends. Here are the
//! laws; there is no code.

ghost use Rattle.std.specs.Prelude.{ℕ, List, suc};
ghost use Rattle.std.specs.List.{AllByRecursion};
ghost use Rattle.occ_complete_states.specs.Configured.{IsConfigured, IsSettledBranch};
ghost use Rattle.occ_complete_states.specs.Headers.{IsHeader};
ghost use Rattle.occ_complete_states.specs.Nodes.{any_of};
ghost use Rattle.occ_complete_states.specs.Ways.{IsSettled};
ghost use Rattle.occ_complete.specs.Ways.{ComesTo};
ghost use Rattle.occ_engine.specs.occ_syntax.Tree.{Tree};
ghost use Rattle.occ_complete_states.specs.occ_target_laws.Shapes.{Header};

/// A configuration leads to an end, or to an ALT of events, acceptances and ends, behind whose events less is left to do.
pub fn configurations_settle()
    ensures { (h : Header) → IsHeader h → (limit : ℕ) (p : Tree) → IsConfigured h (suc limit) p
        → ComesTo h (IsSettledBranch h limit) p }
{}

/// The ALT that goes on at once as one of some configurations leads to an ALT of events, acceptances and ends.
pub fn superpositions_settle()
    ensures { (h : Header) → IsHeader h → (limit : ℕ) (ps : List Tree) → AllByRecursion (IsConfigured h (suc limit)) ps
        → IsSettled h limit (any_of ps) }
{}
