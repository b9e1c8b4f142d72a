// The bins of a trip: for each its tally and its dynamics, and the totals of the tallies.
#![tactic(auto)]

ghost use Rattle.std.specs.Prelude.{◌≡◌};
ghost use Rattle.dynamics.specs.Dynamics.{ranks_of};
ghost use Rattle.bins.specs.Bins.{joined, bins_of};
ghost use Rattle.bins.specs.Inside.{BinLanes, joined_all};

use dynamics::Figures;
use second::Trip;
use tally::Tally;

// A bin of the answer.
// Kept: the C interface: the members of a tally stand in it by themselves, in C's order.
#[repr(C)]
#[derive(Clone, Copy, Default)]
pub struct Bin {
    pub seconds: u32,
    pub distance: u32, // the sum of the speeds, 0.01 km/h: one km is 360,000
    pub co2: u64, // mg, of seconds in state 1
    pub nox: u64, // µg, of seconds in state 1
    pub m: u32, // how many products count
    pub t: u64, // their sum
    pub q: u64, // 100 times their 95th percentile; zero where m is below 100
}

// A bin from its tally and its dynamics.
impl From<(Tally, Figures)> for Bin {
    ghost from_gives = { λ parts bin. bin ≡ joined parts.0 parts.1 };

    fn from((tally, figures): (Tally, Figures)) -> Bin {
        Bin {
            seconds: tally.seconds,
            distance: tally.distance,
            co2: tally.co2,
            nox: tally.nox,
            m: figures.m,
            t: figures.t,
            q: figures.q,
        }
    }
}

// The bins urban, rural, motorway, and their totals.
#[derive(Clone, Copy)]
pub struct Bins {
    pub each: [Bin; 3],
    pub total: Tally,
}

// The bins of a trip. The lane of ranks needs a place per second; afterwards it holds the products
// of the bins, each ascending, and the rest of it is as it was.
pub fn measure(trip: &Trip<'_>, ranks: &mut [u32]) -> Bins
    requires { BinLanes trip.now.states.now trip.now.speeds.now trip.now.co2.now trip.now.nox.now ranks.old }
    ensures { let states = trip.now.states.now in
        let speeds = trip.now.speeds.now in
        (result ≡ bins_of states speeds trip.now.co2.now trip.now.nox.now)
        × (ranks.new ≡ ranks_of states speeds ranks.old) }
{
    let tallies = tally::tally_bins(trip);
    let figures = dynamics::dynamics(trip, ranks);
    Bins {
        each: join(tallies, figures),
        total: tally::total(tallies),
    }
}

// The bins from their tallies and dynamics.
#[tactic(auto, unfolding(crate::specs::Inside::joined_all))]
fn join(tallies: [Tally; 3], figures: [Figures; 3]) -> [Bin; 3]
    ensures { result ≡ joined_all tallies figures }
{
    let [urban, rural, motorway] = tallies;
    let [urban_figures, rural_figures, motorway_figures] = figures;
    [
        Bin::from((urban, urban_figures)),
        Bin::from((rural, rural_figures)),
        Bin::from((motorway, motorway_figures)),
    ]
}
