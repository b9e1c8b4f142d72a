// D of one second, and the percentile of products.

ghost use Rattle.std.specs.Prelude.{◌≡◌, length};
ghost use Rattle.second.specs.Lanes.{lanes_of};
ghost use Rattle.acceleration.specs.D.{acceleration_of};
ghost use Rattle.percentile.specs.Percentile.{answer_of, lane_of};
ghost use Rattle.crossing.specs.Accelerations.{acceleration_across, percentile_across};

use crossing::accelerations;
use crossing::accelerations::{AccelerationAnswer, PercentileAnswer};
use second::Trip;

// D of second `index`, from 0, of a trip's lanes.
pub fn pb_acceleration(
    states: &[u8],
    speeds: &[u16],
    altitudes: &[i32],
    co2: &[u32],
    nox: &[u32],
    index: usize,
) -> AccelerationAnswer
    ensures { let trip = lanes_of states.now speeds.now altitudes.now co2.now nox.now in
        result ≡ acceleration_across (acceleration_of trip index) }
{
    let trip = Trip {
        states,
        speeds,
        altitudes,
        co2,
        nox,
    };
    accelerations::acceleration(&trip, index)
}

// Q of products in any order, which are ranked into the lane.
pub fn pb_percentile(products: &[u32], ranks: &mut [u32]) -> PercentileAnswer
    ensures { (result ≡ percentile_across (answer_of products.now (length ranks.old))) × (ranks.new ≡ lane_of products.now ranks.old) }
{
    accelerations::percentile(products, ranks)
}
