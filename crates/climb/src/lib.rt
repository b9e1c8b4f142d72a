// Corrected altitudes and the climb of a trip (Appendix 7b, first edition), and how far apart its
// first and last altitude are.
#![tactic(auto)]

ghost use Rattle.std.specs.Prelude.{◌≡◌, ◌<◌, ◌-ℤ◌, true, length};
ghost use Rattle.base.specs.Second.{altitude_in_range};
ghost use Rattle.climb.specs.Corrected.{recorded_at, jumps, corrected, is_high};
ghost use Rattle.climb.specs.Climb.{step_up, climb_of, steep};
ghost use Rattle.climb.specs.Ends.{ends_apart};
ghost use Rattle.climb.specs.Inside.{Within, AltitudeLanes, ClimbLanes};

use second::Trip;

// What the altitudes of a trip come to.
#[derive(Clone, Copy)]
pub struct Climbed {
    pub climb: u64, // cm
    pub high: bool, // a corrected altitude is above HIGHEST
}

// The highest corrected altitude, in cm, that reason 9 lets pass.
const HIGHEST: i32 = 130_000;

// The most, in cm, that the first and the last altitude may differ by.
const APART: u32 = 10_000;

// The climb of a trip, and whether a corrected altitude is too high, in one pass.
// Kept: no plainer: ClimbLanes is asked here and in the two steps of `trip` that lead here; the definitions are of any lanes.
pub fn climb(trip: &Trip<'_>) -> Climbed
    requires { ClimbLanes trip.now.states.now trip.now.speeds.now trip.now.altitudes.now }
    ensures { result ≡ climb_of trip.now.states.now trip.now.speeds.now trip.now.altitudes.now }
{
    let mut before = None;
    let mut last = None;
    let mut climb = 0;
    let mut high = false;
    for i in 0..trip.seconds() {
        let recorded = recorded_at(trip, i);
        let next = corrected_from(last, before, recorded, trip.speeds[i]);
        climb += u64::from(step_up(last, next));
        high |= is_high(next);
        before = recorded;
        last = next;
    }
    Climbed { climb, high }
}

// Whether 300 times the climb, in cm, is not below the sum of speeds s.
#[tactic(auto, unfolding(crate::specs::Climb::steep))]
pub fn too_steep(climb: u64, s: u32) -> bool
    ensures { result ≡ steep climb s }
{
    climb.saturating_mul(300) >= u64::from(s)
}

// The recorded altitude of second i; a missing second has none.
#[tactic(auto, unfolding(crate::specs::Corrected::recorded_at))]
fn recorded_at(trip: &Trip<'_>, i: usize) -> Option<i32>
    requires altitude_lanes { AltitudeLanes trip.now.states.now trip.now.altitudes.now }
    requires i_in_bounds { i < length trip.now.states.now }
    ensures value { result ≡ recorded_at trip.now.states.now trip.now.altitudes.now i }
    ensures within { Within result }
{
    second::has_values(trip.states[i]).then_some(trip.altitudes[i])
}

// The corrected altitude after a second: from the one before it, from what the second before it
// recorded, and from the second's own altitude and speed.
#[tactic(auto, unfolding(crate::specs::Corrected::corrected))]
fn corrected_from(
    last: Option<i32>,
    before: Option<i32>,
    recorded: Option<i32>,
    speed: u16,
) -> Option<i32>
    requires { Within before × Within recorded }
    ensures { result ≡ corrected last before recorded speed }
{
    let (Some(from), Some(to)) = (before, recorded) else {
        return recorded.or(last);
    };
    if jumps_to(from, to, speed) {
        last
    } else {
        recorded
    }
}

// Whether the recorded altitude changes by more than the speed allows.
#[tactic(auto, unfolding(crate::specs::Corrected::jumps))]
fn jumps_to(before: i32, recorded: i32, speed: u16) -> bool
    requires { (altitude_in_range before ≡ true) × (altitude_in_range recorded ≡ true) }
    ensures { result ≡ jumps (recorded -ℤ before) speed }
{
    let d = u64::from(recorded.abs_diff(before));
    let s = u64::from(speed);
    648 * (d * d) > 25 * (s * s)
}

// The step up between two successive corrected altitudes, and 0 where it is down or the first.
#[tactic(auto, unfolding(crate::specs::Climb::step_up, crate::specs::Climb::upward))]
fn step_up(from: Option<i32>, to: Option<i32>) -> u32
    ensures { result ≡ step_up from to }
{
    let (Some(from), Some(to)) = (from, to) else {
        return 0;
    };
    if from < to { to.abs_diff(from) } else { 0 }
}

// Whether a corrected altitude is too high.
#[tactic(auto, unfolding(crate::specs::Corrected::is_high))]
fn is_high(altitude: Option<i32>) -> bool
    ensures { result ≡ is_high altitude }
{
    altitude.is_some_and(|altitude| HIGHEST < altitude)
}

// Whether the first and the last recorded altitude differ by over 10,000 cm.
pub fn ends_apart(trip: &Trip<'_>) -> bool
    requires { AltitudeLanes trip.now.states.now trip.now.altitudes.now }
    ensures { result ≡ ends_apart trip.now.states.now trip.now.altitudes.now }
{
    let has_altitude = |state: &u8| second::has_values(*state);
    let Some(first) = trip.states.iter().position(has_altitude) else {
        return false;
    };
    let Some(last) = trip.states.iter().rposition(has_altitude) else {
        return false;
    };
    APART < trip.altitudes[last].abs_diff(trip.altitudes[first])
}
