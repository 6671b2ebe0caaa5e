//! Where schedules lead.

ghost use Rattle.std.specs.Prelude.{[], ◌∷◌, ◌≡◌, length, true};
ghost use Rattle.std.specs.List.{list_all};
ghost use Rattle.occ_run_steps.specs.Leads.{start};
ghost use Rattle.occ_run_steps.specs.Step.{is_unseen};
ghost use Rattle.occ_run_steps.specs.Steps.{steps};
ghost use Rattle.occ_examples.specs.Programs.{any_value, here, holding, passing};
ghost use Rattle.occ_examples.specs.Sayings.{IsDoneAfter};

/// `CHAN OF WORD2 d: PAR(d ! x, d ? y)` has one step, which isn't seen; behind it both variables hold the message.
pub fn a_communication_is_one_step()
    ensures { (length (steps here (holding 2 0) (start here (holding 2 0) passing)) ≡ 1)
        × ((list_all is_unseen (steps here (holding 2 0) (start here (holding 2 0) passing)) ≡ true)
        × IsDoneAfter passing (holding 2 0) (0 ∷ []) [] 2 2) }
{}

/// `WORD2 z: y := z` has a step for each value of z. The last, and then the assignment, leads to y = 3.
pub fn a_variable_begins_with_any_value()
    ensures { (length (steps here (holding 1 0) (start here (holding 1 0) any_value)) ≡ 4)
        × IsDoneAfter any_value (holding 1 0) (3 ∷ 0 ∷ []) [] 1 3 }
{}
