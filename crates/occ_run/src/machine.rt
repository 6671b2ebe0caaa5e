ghost use Rattle.std.specs.Prelude.{◌≡◌, true};
ghost use Rattle.occ_run_steps.specs.Kept.{Kept};
ghost use Rattle.occ_run_steps.specs.Settled.{is_settled};
ghost use Rattle.occ_syntax.specs.Scopes.{IsState, environment, values};
ghost use Rattle.occ_run.specs.View.{control as left};

use crate::control::Control;
use crate::place::Place;
use occ_syntax::Event;

/// A program at work, but for its trace: the values of its parameters, and what is left to be done, which is settled.
#[derive(Drop)]
pub struct Point<'a> {
    pub(crate) place: Place,
    pub(crate) control: Control<'a>,
    pub ghost kept: { ∥ Kept (environment place.scope.items) (left control) ∥₁ },
    pub ghost rests: { is_settled (left control) ≡ true },
    pub ghost state: { IsState (environment place.scope.items) (values place.state.items) },
}

/// A program at work: the values of its parameters, what is left to be done, and the events so far.
#[derive(Drop)]
pub struct Machine<'a> {
    pub(crate) point: Point<'a>,
    pub(crate) trace: Vec<Event>,
}

impl<'a> Point<'a> {
    /// The parameters and their values.
    pub fn place(&self) -> &Place
        ensures { result.now ≡ self.now.place }
    {
        &self.place
    }

    /// What is left to be done.
    pub fn control(&self) -> &Control<'a>
        ensures { result.now ≡ self.now.control }
    {
        &self.control
    }
}

impl<'a> Machine<'a> {
    /// Where the machine stands, without the events so far.
    pub fn into_point(self) -> Point<'a>
        ensures { result ≡ self.entry.point }
    {
        self.point
    }
}
