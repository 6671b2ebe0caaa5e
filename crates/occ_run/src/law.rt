//! What a schedule's steps have to do with the definitions of steps, and with the program.

ghost use Rattle.std.specs.Prelude.{List, Ok, true, ◌≡◌, ℕ};
ghost use Rattle.occ_syntax.specs.occ_base.declared.names.Name.{Name};
ghost use Rattle.occ_behaviour.specs.States.{is_state};
ghost use Rattle.occ_syntax.specs.Same.{HasTrace};
ghost use Rattle.occ_syntax.specs.Scopes.{environment, values};
ghost use Rattle.occ_syntax.specs.View.{tree};
ghost use Rattle.occ_syntax.specs.declared.scope.Program.{Program};
ghost use Rattle.occ_usage.specs.Accepted.{IsAccepted};
ghost use Rattle.occ_run.specs.declared.answer.Stand.{Stand};
ghost use Rattle.occ_run.specs.Configurations.{Configuration, followed, started};
ghost use Rattle.occ_run.specs.Laws.{Belongs, IsLed};
ghost use Rattle.occ_run.specs.Stands.{IsStand, shown};

/// Numbers that can all be followed lead, by the definitions of steps, to the values and the control tree that they are
/// said to lead to, and what is seen on the way is the trace.
pub fn numbers_that_are_followed_lead()
    ensures { (k : ℕ) (c : Configuration) (ns : List ℕ) (d : Configuration) → followed k c ns ≡ Ok d → IsLed c d ns }
{}

/// What is seen on the way from the start of an accepted program is a trace of the program from that state.
pub fn what_is_seen_is_a_trace_of_the_program()
    ensures { (program : Program) → IsAccepted program → (state : List (Name × ℕ)) → is_state program.params state ≡ true →
        (k : ℕ) (ns : List ℕ) (d : Configuration) →
        followed k (started program state) ns ≡ Ok d →
        HasTrace (environment program.params) (tree program.body) (values state) d.trace }
{}

/// Where a machine of an accepted program has ended, is stuck or is stable, the behaviour that it shows is one of the
/// program: the state that it began in, the trace, and the state that it ended in or the events that it refuses.
pub fn what_a_stand_shows_belongs_to_the_program()
    ensures { (program : Program) → IsAccepted program → (state : List (Name × ℕ)) → is_state program.params state ≡ true →
        (k : ℕ) (ns : List ℕ) (d : Configuration) →
        followed k (started program state) ns ≡ Ok d →
        (stand : Stand) → IsStand d stand → Belongs program state d.trace (shown stand) }
{}
