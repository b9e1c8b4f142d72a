// D of a second, and the products of the seconds that count in a bin (Appendix 7a).
#![tactic(auto)]

ghost use Rattle.std.specs.Prelude.{◌≡◌, ◌^◌, ◌<◌, ◌≤◌, length, nat_abs, IfOk, IfSome};
ghost use Rattle.base.specs.Refusal.{fault_in, answer_in};
ghost use Rattle.base.specs.Words.{with_front};
ghost use Rattle.second.specs.Lanes.{lanes_in};
ghost use Rattle.acceleration.specs.D.{speed_before, speed_after, has_before, has_after, has_d, d_of, fault_of, acceleration_of};
ghost use Rattle.acceleration.specs.Inside.{SpeedLanes, product_counted, figures_of};
ghost use Rattle.acceleration.specs.Products.{products_of};

use base::{Refusal, Refused};
use second::Trip;

// The products of a bin.
#[derive(Clone, Copy)]
pub struct Products {
    pub count: usize, // M
    pub total: u64, // T
}

// A second counts where its D is above this.
const D_COUNTS: u32 = 72;

// D of second i, counted from 0, and that it has none where it is missing, or one beside it.
pub fn d_of_second(trip: &Trip<'_>, i: usize) -> Result<Option<i32>, Refused>
    ensures value { answer_in result ≡ acceleration_of (lanes_in trip.now) i }
    ensures of_16_bits { IfOk result (λ found. IfSome found (λ d. nat_abs d < 2 ^ 16)) }
{
    check(trip, i)?;
    if has_d(trip.states, i) {
        return Ok(Some(d_of(trip.speeds, i)));
    }
    Ok(None)
}

// What is refused of a trip's lanes and an index: 1, 2, 3, then 4.
fn check(trip: &Trip<'_>, i: usize) -> Result<(), Refused>
    ensures { fault_in result ≡ fault_of (lanes_in trip.now) i }
{
    if !trip.agree() {
        return Err(Refused::from(Refusal::LanesDiffer));
    }
    let seconds = trip.seconds();
    if base::too_many(seconds) {
        return Err(Refused::from(Refusal::TooMany));
    }
    if let Some(place) = second::first_bad(trip) {
        return Err(Refused {
            refusal: Refusal::OutOfRange,
            place,
        });
    }
    if second::none_has_values(trip.states) | (seconds <= i) {
        return Err(Refused::from(Refusal::NoSecond));
    }
    Ok(())
}

// Whether second i has D: neither it nor one beside it is missing.
#[tactic(auto, unfolding(crate::specs::D::has_d))]
fn has_d(states: &[u8], i: usize) -> bool
    requires { i < length states.now }
    ensures { result ≡ has_d states.now i }
{
    second::has_values(states[i]) & has_before(states, i) & has_after(states, i)
}

// Whether the second before second i is not missing.
fn has_before(states: &[u8], i: usize) -> bool
    requires { i < length states.now }
    ensures { result ≡ has_before states.now i }
{
    i == 0 || second::has_values(states[i - 1])
}

// Whether the second after second i is not missing.
fn has_after(states: &[u8], i: usize) -> bool
    requires { i < length states.now }
    ensures { result ≡ has_after states.now i }
{
    match states.get(i + 1) {
        Some(state) => second::has_values(*state),
        None => true,
    }
}

// D of second i.
fn d_of(speeds: &[u16], i: usize) -> i32
    requires { i < length speeds.now }
    ensures value { result ≡ d_of speeds.now i }
    ensures of_16_bits { nat_abs result < 2 ^ 16 }
{
    i32::from(speed_after(speeds, i)) - i32::from(speed_before(speeds, i))
}

// The speed before second i, 0 before the first.
fn speed_before(speeds: &[u16], i: usize) -> u16
    requires { i < length speeds.now }
    ensures { result ≡ speed_before speeds.now i }
{
    match i.checked_sub(1) {
        Some(before) => speeds[before],
        None => 0,
    }
}

// The speed after second i, 0 after the last.
#[tactic(auto, unfolding(crate::specs::D::speed_after))]
fn speed_after(speeds: &[u16], i: usize) -> u16
    requires { i < length speeds.now }
    ensures { result ≡ speed_after speeds.now i }
{
    speeds.get(i + 1).copied().unwrap_or(0)
}

// Writes the products of a bin to the front of a lane, in the order of the seconds.
pub fn write_products(trip: &Trip<'_>, bin: usize, lane: &mut [u32]) -> Products
    requires speed_lanes { SpeedLanes trip.now.states.now trip.now.speeds.now }
    requires room { length (products_of bin trip.now.states.now trip.now.speeds.now) ≤ length lane.old }
    ensures value { result ≡ figures_of (products_of bin trip.now.states.now trip.now.speeds.now) }
    ensures lane_after { lane.new ≡ with_front (products_of bin trip.now.states.now trip.now.speeds.now) lane.old }
{
    let mut count = 0;
    let mut total = 0;
    for i in 0..trip.seconds() {
        if let Some(product) = product_counted(trip, bin, i) {
            lane[count] = product;
            count += 1;
            total += u64::from(product);
        }
    }
    Products { count, total }
}

// The product of second i, where it counts and is in the bin.
fn product_counted(trip: &Trip<'_>, bin: usize, i: usize) -> Option<u32>
    requires { (i < length trip.now.states.now) × (i < length trip.now.speeds.now) }
    ensures { result ≡ product_counted bin trip.now.states.now trip.now.speeds.now i }
{
    let speed = trip.speeds[i];
    if second::road_of(speed).index() != bin {
        return None;
    }
    let before = u32::from(speed_before(trip.speeds, i));
    let after = u32::from(speed_after(trip.speeds, i));
    if has_d(trip.states, i) & (before + D_COUNTS < after) {
        return Some(u32::from(speed) * (after - before));
    }
    None
}
