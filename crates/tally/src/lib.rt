// What a trip's seconds come to: a tally for each bin, and the counts of states and speeds that the
// reasons ask for. Each figure is one definition in specs/, a sum over a set of seconds.
#![tactic(auto)]

ghost use Rattle.std.specs.Prelude.{◌≡◌, ◌^◌, ◌<◌};
ghost use Rattle.tally.specs.Tally.{mass_of};
ghost use Rattle.tally.specs.Counts.{counts_of};
ghost use Rattle.tally.specs.Inside.{TallyLanes, Room, with_second, bin_tallies, added, CountLanes, Few, gap_with, counts_with};

use second::Trip;

// Seconds taken together: one for each bin, and one for the trip.
#[repr(C)]
#[derive(Clone, Copy, Default)]
pub struct Tally {
    pub seconds: u32,
    pub distance: u32, // the sum of the speeds, 0.01 km/h: one km is 360,000
    pub co2: u64, // mg, of seconds in state 1
    pub nox: u64, // µg, of seconds in state 1
}

// What the reasons ask of states and speeds.
#[derive(Clone, Copy, Default)]
pub struct Counts {
    pub missing: u32,
    pub gap: u32, // the most missing seconds in a row
    pub slow: u32, // urban seconds below SLOW_BELOW
    pub fast: u32, // seconds above FAST_ABOVE
    pub faster: u32, // seconds above FASTER_ABOVE
    pub fastest: u32, // seconds above FASTEST_ABOVE
}

// The speeds that the counts ask for, 0.01 km/h.
const SLOW_BELOW: u16 = 100;

const FAST_ABOVE: u16 = 10_000;

const FASTER_ABOVE: u16 = 14_500;

const FASTEST_ABOVE: u16 = 16_000;

// The tallies of the bins urban, rural, motorway.
pub fn tally_bins(trip: &Trip<'_>) -> [Tally; 3]
    requires { TallyLanes trip.now.states.now trip.now.speeds.now trip.now.co2.now trip.now.nox.now }
    ensures value { result ≡ bin_tallies trip.now.states.now trip.now.speeds.now trip.now.co2.now trip.now.nox.now }
    ensures room { Room (added result) }
{
    let Trip {
        states,
        speeds,
        co2,
        nox,
        ..
    } = *trip;
    let mut bins = [Tally::default(); 3];
    for i in 0..states.len() {
        let bin = second::road_of(speeds[i]).index();
        bins[bin] = bins[bin].with_second(states[i], speeds[i], co2[i], nox[i]);
    }
    bins
}

impl Tally {
    // This tally with one more second, in this state and with these values. A missing second adds
    // nothing, and only a measured one adds masses.
    // Kept: the C interface: a state is a byte of a lane, and any byte has an answer.
    #[tactic(auto, unfolding(crate::specs::Inside::with_second))]
    fn with_second(self, state: u8, speed: u16, co2: u32, nox: u32) -> Tally
        requires { Room self }
        ensures { result ≡ with_second self state speed co2 nox }
    {
        if !second::has_values(state) {
            return self;
        }
        Tally {
            seconds: self.seconds + 1,
            distance: self.distance + u32::from(speed),
            co2: self.co2 + u64::from(mass_of(state, co2)),
            nox: self.nox + u64::from(mass_of(state, nox)),
        }
    }
}

// The mass of a second in this state, as it counts: a check second's masses do not.
// Kept: the C interface: a state is a byte of a lane, and any byte has an answer.
fn mass_of(state: u8, mass: u32) -> u32
    ensures { result ≡ mass_of state mass }
{
    if state == base::state::MEASURED {
        mass
    } else {
        0
    }
}

// The tallies of the bins added up: the tally of the trip.
#[tactic(auto, unfolding(crate::specs::Inside::added))]
pub fn total(bins: [Tally; 3]) -> Tally
    requires { Room (added bins) }
    ensures { result ≡ added bins }
{
    let [urban, rural, motorway] = bins;
    Tally {
        seconds: urban.seconds + rural.seconds + motorway.seconds,
        distance: urban.distance + rural.distance + motorway.distance,
        co2: urban.co2 + rural.co2 + motorway.co2,
        nox: urban.nox + rural.nox + motorway.nox,
    }
}

// The counts of states and speeds.
pub fn count_seconds(trip: &Trip<'_>) -> Counts
    requires { CountLanes trip.now.states.now trip.now.speeds.now }
    ensures { result ≡ counts_of trip.now.states.now trip.now.speeds.now }
{
    let mut counts = Counts::default();
    let mut gap = 0;
    for i in 0..trip.seconds() {
        let state = trip.states[i];
        gap = gap_with(gap, state);
        counts = counts.with(gap, state, trip.speeds[i]);
    }
    counts
}

// The missing seconds in a row that end with a second in this state.
// Kept: the C interface: a state is a byte of a lane, and any byte has an answer.
fn gap_with(gap: u32, state: u8) -> u32
    requires { gap < 2 ^ 16 }
    ensures { result ≡ gap_with gap state }
{
    if state == base::state::MISSING {
        gap + 1
    } else {
        0
    }
}

impl Counts {
    // These counts with one more second, in this state and with this speed, where so many missing
    // seconds in a row end with it.
    // Kept: the C interface: a state is a byte of a lane, and any byte has an answer.
    #[tactic(auto, unfolding(crate::specs::Inside::counts_with))]
    fn with(self, gap: u32, state: u8, speed: u16) -> Counts
        requires { Few self }
        ensures { result ≡ counts_with self gap state speed }
    {
        let present = second::has_values(state);
        Counts {
            missing: self.missing + u32::from(state == base::state::MISSING),
            gap: self.gap.max(gap),
            slow: self.slow + u32::from(present & (speed < SLOW_BELOW)),
            fast: self.fast + u32::from(present & (FAST_ABOVE < speed)),
            faster: self.faster + u32::from(present & (FASTER_ABOVE < speed)),
            fastest: self.fastest + u32::from(present & (FASTEST_ABOVE < speed)),
        }
    }
}
