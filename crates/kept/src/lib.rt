// Kept seconds (Appendix 5): those in state 1 with a speed of at least 100. Their speeds and CO2
// masses stand in order in lanes of their own.
#![tactic(auto)]

ghost use Rattle.std.specs.Prelude.{◌≡◌, length};
ghost use Rattle.base.specs.Words.{with_front};
ghost use Rattle.second.specs.Lanes.{lanes_in};
ghost use Rattle.kept.specs.Kept.{second_kept, kept_of};
ghost use Rattle.kept.specs.Inside.{KeptLanes};

use second::Trip;

// The slowest speed of a kept second, 0.01 km/h.
const SLOWEST: u16 = 100;

// Writes the speeds and the CO2 masses of the kept seconds to the front of two lanes; the rest of
// the lanes stays as it was. The answer is the number of kept seconds.
// Kept: a project rule: no heap, so that what is kept stands in lanes that are lent, and is counted.
#[tactic(auto, using(crate::proofs::Keeping::front_room))]
pub fn keep(trip: &Trip<'_>, kept_speeds: &mut [u16], kept_co2: &mut [u32]) -> usize
    requires { let lanes = lanes_in trip.now in
        KeptLanes lanes.states lanes.speeds lanes.co2 (length kept_speeds.old) (length kept_co2.old) }
    ensures { let lanes = lanes_in trip.now in
        let keeps = kept_of lanes.states lanes.speeds in
        (result ≡ length (keeps lanes.co2))
        × (kept_speeds.new ≡ with_front (keeps lanes.speeds) kept_speeds.old)
        × (kept_co2.new ≡ with_front (keeps lanes.co2) kept_co2.old) }
{
    let mut count = 0;
    for i in 0..trip.states.len() {
        let speed = trip.speeds[i];
        let mass = trip.co2[i];
        if is_kept(trip.states[i], speed) {
            kept_speeds[count] = speed;
            kept_co2[count] = mass;
            count += 1;
        }
    }
    count
}

// Whether a second with this state and speed is kept.
// Kept: the C interface: a state is a byte of a lane, and any byte has an answer.
fn is_kept(state: u8, speed: u16) -> bool
    ensures { result ≡ second_kept state speed }
{
    (state == base::state::MEASURED) & (SLOWEST <= speed)
}
