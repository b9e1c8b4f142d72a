// The answer of a trip that is not refused: the figures put together, and the verdict from them.

ghost use Rattle.std.specs.Prelude.{◌≡◌};
ghost use Rattle.climb.specs.Inside.{ClimbLanes};
ghost use Rattle.trip.specs.Trip.{figures_from, answer_from};

use crate::Evaluated;
use bins::Bins;
use found::Found;
use reasons::Figures;
use second::Trip;

// The answer from the lanes, the windows and the bins.
#[tactic(auto, unfolding(crate::specs::Trip::figures_from, crate::specs::Trip::answer_from))]
pub fn conclude(trip: &Trip<'_>, found: Found, bins: Bins) -> Evaluated
    requires { ClimbLanes trip.now.states.now trip.now.speeds.now trip.now.altitudes.now }
    ensures { result ≡ answer_from trip.now.states.now trip.now.speeds.now trip.now.altitudes.now found bins }
{
    let figures = figures_from(trip, found, bins);
    let each = bins.each;
    let classes = found.classes;
    Evaluated {
        refusal: base::refusal::ACCEPTED,
        place: 0,
        seconds: figures.seconds,
        missing: figures.counts.missing,
        kept: found.kept,
        windows: found.windows,
        moves: found.moves,
        bins: each,
        total: bins.total,
        climb: figures.climb,
        classes,
        verdict: verdict::judge(&figures),
    }
}

// What the reasons are judged from.
#[tactic(auto, unfolding(crate::specs::Trip::figures_from))]
fn figures_from(trip: &Trip<'_>, found: Found, bins: Bins) -> Figures
    requires { ClimbLanes trip.now.states.now trip.now.speeds.now trip.now.altitudes.now }
    ensures { result ≡ figures_from trip.now.states.now trip.now.speeds.now trip.now.altitudes.now found bins }
{
    let climbed = climb::climb(trip);
    let each = bins.each;
    let classes = found.classes;
    Figures {
        seconds: trip.seconds() as u32,
        counts: tally::count_seconds(trip),
        distance: bins.total.distance,
        apart: climb::ends_apart(trip),
        high: climbed.high,
        climb: climbed.climb,
        bins: each,
        classes,
    }
}
