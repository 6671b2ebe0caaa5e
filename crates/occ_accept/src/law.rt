ghost use Rattle.std.specs.Prelude.{List};
ghost use Rattle.occ_base.specs.declared.event.Event.{Event};
ghost use Rattle.occ_accept.specs.Accept.{IsTold};

/// An antichain is determined by what it refuses: two that refuse the same sets of events are equal.
pub fn refusals_tell_antichains()
    ensures { (r s : List (List Event)) → IsTold r s }
{}
