// A whole trip: its kept seconds and windows, its bins, its climb, and the sixteen-bit verdict. The
// work is that of the crates below; this one refuses what they cannot take, hands the lanes round
// and puts the answer together. specs/ says what is right: Refusals, Trip, Lent.
#![tactic(auto)]

mod conclusion;
mod refusals;

ghost use Rattle.std.specs.Prelude.{◌≡◌};
ghost use Rattle.second.specs.Lanes.{lanes_in};
ghost use Rattle.trip.specs.Trip.{answer_of};
ghost use Rattle.trip.specs.Lent.{rooms_in, lent_left, lent_in};
ghost use Rattle.trip.specs.Same.{SameWork};

use base::Plan;
use bins::Bin;
use second::Trip;
use tally::Tally;
use windows::ClassCount;

// The answer. In a refusal everything but its number and place is zero. Bins and classes stand in
// the order urban, rural, motorway.
// Kept: the C interface: a number of refusal and its place beside the rest, as C reads them.
#[repr(C)]
#[derive(Clone, Copy, Default)]
pub struct Evaluated {
    pub refusal: u8, // 0, or 5, 1, 2, 6, 3, 4
    pub place: usize, // for refusal 3 the index of the first bad second, else 0
    pub seconds: u32, // all seconds
    pub missing: u32,
    pub kept: u32,
    pub windows: u32, // unclassed ones too
    pub moves: u32,
    pub bins: [Bin; 3],
    pub total: Tally,
    pub climb: u64, // cm
    pub classes: [ClassCount; 3],
    pub verdict: u16, // a bit for each reason; zero says that the trip is valid
}

// How many places the lent lanes have.
// Kept: may not change: `trip_fault` and `answer_of` speak of the four lengths, and not of the lanes.
#[derive(Clone, Copy)]
pub struct Rooms {
    pub speeds: usize, // for kept speeds
    pub co2: usize, // for kept CO2 masses
    pub ends: usize,
    pub ranks: usize,
}

// The lanes that an evaluation is lent, each with a place per second.
#[derive(Drop)]
pub struct Workspace<'a> {
    pub kept_speeds: &'a mut [u16],
    pub kept_co2: &'a mut [u32],
    pub ends: &'a mut [u16], // the end of each window, in the place of its first second
    pub ranks: &'a mut [u32],
}

impl Workspace<'_> {
    // How many places its lanes have.
    fn rooms(&self) -> Rooms
        ensures { result ≡ rooms_in (lent_in self.now) }
    {
        Rooms {
            speeds: self.kept_speeds.len(),
            co2: self.kept_co2.len(),
            ends: self.ends.len(),
            ranks: self.ranks.len(),
        }
    }
}

// Evaluates a trip from its plan and its five lanes, in four lent lanes.
pub fn evaluate(plan: Plan, trip: &Trip<'_>, work: &mut Workspace<'_>) -> Evaluated
    ensures answer { result ≡ answer_of plan (lanes_in trip.now) (rooms_in (lent_in work.old)) }
    ensures left { lent_in work.new ≡ lent_left plan (lanes_in trip.now) (lent_in work.old) }
    ensures same { SameWork work.old work.new }
{
    if let Err(refused) = refusals::check(plan, trip, work.rooms()) {
        return refusals::refused_for(refused);
    }
    let found = found::find(plan, trip, work.kept_speeds, work.kept_co2, work.ends);
    let bins = bins::measure(trip, work.ranks);
    conclusion::conclude(trip, found, bins)
}
