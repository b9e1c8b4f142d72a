// The dynamics of a trip (Appendix 7a): for each bin its products, ranked, their sum and their
// percentile.
#![tactic(auto)]

ghost use Rattle.std.specs.Prelude.{◌≡◌, ◌≤◌, length};
ghost use Rattle.base.specs.Roads.{of_each, road_number};
ghost use Rattle.base.specs.Words.{with_front};
ghost use Rattle.order.specs.Sort.{sort};
ghost use Rattle.acceleration.specs.Inside.{SpeedLanes};
ghost use Rattle.acceleration.specs.Products.{products_of};
ghost use Rattle.dynamics.specs.Dynamics.{dynamics_of, ranks_of};
ghost use Rattle.dynamics.specs.Inside.{DynamicsLanes};

use base::Road;
use second::Trip;

// What the dynamics of a bin come to.
#[derive(Clone, Copy)]
pub struct Figures {
    pub m: u32, // how many products
    pub t: u64, // their sum
    pub q: u64, // their percentile, zero where M is below 100
}

// The dynamics of the three bins. The lane afterwards holds the urban, the rural and the motorway
// products, each ascending, and the rest of it is as it was.
pub fn dynamics(trip: &Trip<'_>, ranks: &mut [u32]) -> [Figures; 3]
    requires { DynamicsLanes trip.now.states.now trip.now.speeds.now ranks.old }
    ensures { let states = trip.now.states.now in
        let speeds = trip.now.speeds.now in
        (result ≡ of_each (λ bin. dynamics_of (products_of bin states speeds)))
        × (ranks.new ≡ ranks_of states speeds ranks.old) }
{
    let urban = bin_dynamics(trip, Road::Urban, ranks);
    let first = urban.m as usize;
    let rural = bin_dynamics(trip, Road::Rural, &mut ranks[first..]);
    let both = first + rural.m as usize;
    let motorway = bin_dynamics(trip, Road::Motorway, &mut ranks[both..]);
    [urban, rural, motorway]
}

// The dynamics of a bin, whose products are ranked at the front of the lane.
fn bin_dynamics(trip: &Trip<'_>, bin: Road, lane: &mut [u32]) -> Figures
    requires speed_lanes { SpeedLanes trip.now.states.now trip.now.speeds.now }
    requires room { length (products_of (road_number bin) trip.now.states.now trip.now.speeds.now) ≤ length lane.old }
    ensures { let products = products_of (road_number bin) trip.now.states.now trip.now.speeds.now in
        (result ≡ dynamics_of products)
        × (lane.new ≡ with_front (sort products) lane.old) }
{
    let products = acceleration::write_products(trip, bin.index(), lane);
    let q = percentile::rank_first(lane, products.count);
    Figures {
        m: products.count as u32,
        t: products.total,
        q,
    }
}
