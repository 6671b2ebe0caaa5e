ghost use Rattle.std.specs.Prelude.{IfOk, IfSome, Option};

use occ_dd::{Label, Memory};

/// How two maps are combined, label by label, by something that may change on the way. It has three
/// meanings: a test of the labels that it takes; a relation between two labels and the answer for
/// them; and an order from an earlier state to a later one, which is reflexive and transitive.
/// What passes the test or stands in the relation does so at every later state.
pub trait Both<L: Label> {
    ghost accepts: { Self → L → Type 0 };

    ghost relates: { Self → Option L → Option L → Option L → Type 0 };

    ghost leads: { Self → Self → Type 0 };

    /// The label for two labels, which pass the test. Also where memory runs out, the state is a later one.
    fn both(&mut self, a: Option<L>, b: Option<L>) -> Result<Option<L>, Memory>
        requires a { IfSome a (accepts self.old) }
        requires b { IfSome b (accepts self.old) }
        ensures leads { leads self.old self.new }
        ensures relates { IfOk result (λ r. relates self.new a b r) };

    ghost leads_refl: { (f : Self) → leads f f };

    ghost leads_trans: { (f g h : Self) → leads f g → leads g h → leads f h };

    ghost accepts_later: { (f g : Self) (x : L) → leads f g → accepts f x → accepts g x };

    ghost relates_later: { (f g : Self) (x y z : Option L) → leads f g → relates f x y z → relates g x y z };
}
