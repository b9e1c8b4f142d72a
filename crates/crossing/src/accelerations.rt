// D of one second, and the percentile of products.

ghost use Rattle.std.specs.Prelude.{◌≡◌, ◌<◌, ◌^◌, length, nat_abs, Ok, Some};
ghost use Rattle.second.specs.Lanes.{lanes_in};
ghost use Rattle.acceleration.specs.D.{acceleration_of};
ghost use Rattle.percentile.specs.Percentile.{answer_of, lane_of};
ghost use Rattle.crossing.specs.Accelerations.{acceleration_across, percentile_across};

use base::refusal::ACCEPTED;
use second::Trip;

// D of one second: a number, or none.
// Kept: the C interface: a number of refusal and its place beside the rest, as C reads them.
#[repr(C)]
#[derive(Clone, Copy)]
pub struct AccelerationAnswer {
    pub refusal: u8, // 0, 1, 2, 3 or 4
    pub has_d: bool,
    pub rise: u16, // D is rise - fall, 0.01 km/h, and one of the two is 0
    pub fall: u16,
    pub place: usize, // index of the first bad second for 3, else 0
}

// D of second `index`, from 0, of a trip's lanes.
#[tactic(auto, unfolding(crate::specs::Accelerations::acceleration_across))]
pub fn acceleration(trip: &Trip<'_>, index: usize) -> AccelerationAnswer
    ensures { result ≡ acceleration_across (acceleration_of (lanes_in trip.now) index) }
{
    match acceleration::d_of_second(trip, index) {
        Ok(Some(d)) => found(d),
        Ok(None) => AccelerationAnswer {
            refusal: ACCEPTED,
            has_d: false,
            rise: 0,
            fall: 0,
            place: 0,
        },
        Err(refused) => AccelerationAnswer {
            refusal: u8::from(refused.refusal),
            has_d: false,
            rise: 0,
            fall: 0,
            place: refused.place,
        },
    }
}

// D as how far it rises and how far it falls.
#[tactic(auto, unfolding(crate::specs::Accelerations::acceleration_across))]
fn found(d: i32) -> AccelerationAnswer
    requires { nat_abs d < 2 ^ 16 }
    ensures { result ≡ acceleration_across (Ok (Some d)) }
{
    let size = d.unsigned_abs() as u16;
    AccelerationAnswer {
        refusal: ACCEPTED,
        has_d: true,
        rise: if 0 <= d { size } else { 0 },
        fall: if 0 <= d { 0 } else { size },
        place: 0,
    }
}

// Q of products.
// Kept: the C interface: a number of refusal and its place beside the rest, as C reads them.
#[repr(C)]
#[derive(Clone, Copy)]
pub struct PercentileAnswer {
    pub refusal: u8, // 0, 2, 12, 6 or 3
    pub q: u64,
    pub place: usize, // index of the first bad product for 3, else 0
}

// Q of products in any order, which are ranked into the lane.
#[tactic(auto, unfolding(crate::specs::Accelerations::percentile_across))]
pub fn percentile(products: &[u32], ranks: &mut [u32]) -> PercentileAnswer
    ensures { (result ≡ percentile_across (answer_of products.now (length ranks.old))) × (ranks.new ≡ lane_of products.now ranks.old) }
{
    match percentile::percentile(products, ranks) {
        Ok(q) => PercentileAnswer {
            refusal: ACCEPTED,
            q,
            place: 0,
        },
        Err(refused) => PercentileAnswer {
            refusal: u8::from(refused.refusal),
            q: 0,
            place: refused.place,
        },
    }
}
