//! What single steps of a program have to do with its meaning: a control tree is given one, and a step says what it does.

ghost use Rattle.occ_run_steps.specs.Controlled.{controlled};
ghost use Rattle.occ_run_steps.specs.Reached.{Reached};
ghost use Rattle.occ_run_steps.specs.Control.{Control};
ghost use Rattle.occ_run_steps.specs.Kept.{Kept};
ghost use Rattle.occ_run_steps.specs.Leads.{Leads, start};
ghost use Rattle.occ_run_steps.specs.Settled.{is_settled, settled};
ghost use Rattle.occ_meaning.specs.occ_syntax.Counts.{controls};
ghost use Rattle.occ_meaning.specs.occ_syntax.Meaning.{Outcome, meaning};
ghost use Rattle.occ_meaning.specs.occ_syntax.Same.{HasTrace};
ghost use Rattle.occ_meaning.specs.occ_syntax.Scopes.{Environment, IsState, Trace, Values};
ghost use Rattle.occ_meaning.specs.occ_syntax.Tree.{Tree};
ghost use Rattle.occ_meaning.specs.occ_syntax.Usage.{Keeps};
ghost use Rattle.std.specs.Prelude.{List, length, true, ◌++◌, ◌↔◌, ◌≡◌, ◌≤◌, ℕ};

/// What a control tree comes to without a step does what the tree does.
pub fn settling_keeps_the_meaning()
    ensures { (Γ : Environment) (s : Values) (C : Control) (t : Trace) (o : Outcome) →
        (controlled (settled Γ s C)).does Γ s t o ↔ (controlled C).does Γ s t o }
{}

/// What is done where a schedule leads, the control tree that it began with does behind the schedule's trace.
pub fn steps_are_sound()
    ensures { (Γ : Environment) (s : Values) (C : Control) (ns : List ℕ) (t : Trace) (r : Values) (D : Control) → Kept Γ C → IsState Γ s →
        Leads Γ s C ns t r D → (u : Trace) (o : Outcome) → (controlled D).does Γ r u o → (controlled C).does Γ s (t ++ u) o }
{}

/// Each behaviour of a settled control tree is reached by some schedule.
pub fn steps_are_complete()
    ensures { (Γ : Environment) (s : Values) (C : Control) → Kept Γ C → IsState Γ s → is_settled C ≡ true → (t : Trace) (o : Outcome) →
        (controlled C).does Γ s t o → Reached Γ s C t o }
{}

/// A program ends so after a trace exactly where some schedule leads with it to a control tree that is done, in that state;
/// it fails so exactly where some schedule leads with it to one that isn't done, all of whose steps are events outside the set.
pub fn programs_do_what_schedules_reach()
    ensures { (Γ : Environment) (p : Tree) (s : Values) → Keeps Γ p → IsState Γ s → (t : Trace) (o : Outcome) →
        (meaning p).does Γ s t o ↔ Reached Γ s (start Γ s p) t o }
{}

/// The events that are seen on a schedule's way are a trace of the program.
pub fn schedules_have_traces_of_the_program()
    ensures { (Γ : Environment) (p : Tree) (s : Values) → Keeps Γ p → IsState Γ s → (ns : List ℕ) (t : Trace) (r : Values) (D : Control) →
        Leads Γ s (start Γ s p) ns t r D → HasTrace Γ p s t }
{}

/// A schedule has no more steps than the program has controls.
pub fn schedules_are_bounded()
    ensures { (Γ : Environment) (s : Values) (p : Tree) (ns : List ℕ) (t : Trace) (r : Values) (D : Control) →
        Leads Γ s (start Γ s p) ns t r D → length ns ≤ controls p }
{}
