// A whole trip.

ghost use Rattle.std.specs.Prelude.{◌≡◌};
ghost use Rattle.second.specs.Lanes.{lanes_of};
ghost use Rattle.trip.specs.Trip.{answer_of};
ghost use Rattle.trip.specs.Lent.{lent_of, rooms_in, lent_left};

use base::Plan;
use second::Trip;
use trip::{Evaluated, Workspace};

// Evaluates a trip from its plan and its five lanes; the four lent lanes need a place per second.
pub fn pb_evaluate(
    plan: Plan,
    states: &[u8],
    speeds: &[u16],
    altitudes: &[i32],
    co2: &[u32],
    nox: &[u32],
    kept_speeds: &mut [u16],
    kept_co2: &mut [u32],
    ends: &mut [u16],
    ranks: &mut [u32],
) -> Evaluated
    ensures { let trip = lanes_of states.now speeds.now altitudes.now co2.now nox.now in
        let lent = lent_of kept_speeds.old kept_co2.old ends.old ranks.old in
        let left = lent_of kept_speeds.new kept_co2.new ends.new ranks.new in
        (result ≡ answer_of plan trip (rooms_in lent))
        × (left ≡ lent_left plan trip lent) }
{
    let trip = Trip {
        states,
        speeds,
        altitudes,
        co2,
        nox,
    };
    let mut work = Workspace {
        kept_speeds,
        kept_co2,
        ends,
        ranks,
    };
    trip::evaluate(plan, &trip, &mut work)
}
