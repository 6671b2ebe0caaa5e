ghost use Rattle.std.specs.Prelude.{◌≡◌, map};
ghost use Rattle.occ_run.specs.Effects.{seen_offers};
ghost use Rattle.occ_run.specs.Machines.{step_at, steps_at};

use occ_run::{Offer, Point};
use occ_syntax::Memory;

/// Where the step of a number leads, by all steps of a configuration; None where there is no such step.
pub(crate) fn behind<'p>(
    point: &Point<'p>,
    offers: &[Offer<'p>],
    number: usize,
) -> Result<Option<Point<'p>>, Memory>
    requires { map (step_at point.now) (seen_offers offers.now) ≡ steps_at point.now }
{
    let Some(offer) = offers.get(number) else {
        return Ok(None);
    };
    let next = point.after(offer)?;
    Ok(Some(next))
}
