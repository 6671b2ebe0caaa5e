ghost use Rattle.std.specs.Prelude.{◌≡◌};
ghost use Rattle.occ_run_schedule.specs.declared.schedule.Schedule.{Schedule};
ghost use Rattle.occ_syntax.specs.View.{tree};
ghost use Rattle.occ_syntax.specs.declared.scope.Program.{Program};
ghost use Rattle.occ_run_schedule.specs.declared.following.Followed.{Followed};
ghost use Rattle.occ_run_schedule.specs.Following.{IsFollowed};

/// A schedule leads to one place, or has one first step that isn't there.
pub fn one_following()
    ensures { (p q : Program) (schedule : Schedule) (f g : Followed) → p.params ≡ q.params → tree p.body ≡ tree q.body
        → IsFollowed p schedule f → IsFollowed q schedule g → f ≡ g }
{}
