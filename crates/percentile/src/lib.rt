// The 95th percentile of products (Appendix 7a): Q of a ranked slice, and the call that ranks
// products in any order into a lent lane first.
#![tactic(auto)]

ghost use Rattle.std.specs.Prelude.{◌≡◌, ◌++◌, ◌≤◌, ◌<◌, length, take, drop, unwrap_or, IfSome};
ghost use Rattle.base.specs.Limits.{trip_limit};
ghost use Rattle.base.specs.Refusal.{answer_in, fault_in};
ghost use Rattle.base.specs.Words.{with_front};
ghost use Rattle.order.specs.Sort.{sort};
ghost use Rattle.percentile.specs.Inside.{Ranked};
ghost use Rattle.percentile.specs.Percentile.{q_of, q_or_zero, first_bad_product, fault_of, answer_of, lane_of};

use base::{Refusal, Refused};

// The fewest values that a percentile is asked of.
pub const FEWEST: usize = 100;

// A product, from 0.
const PRODUCT: u32 = 625_000_000;

// Q of products in any order, which are ranked into the lane, one place for each: or what is refused,
// 2, 12, 6 or 3.
#[tactic(auto, using(crate::proofs::Refusals::accepted_given))]
pub fn percentile(values: &[u32], ranks: &mut [u32]) -> Result<u64, Refused>
    ensures value { answer_in result ≡ answer_of values.now (length ranks.old) }
    ensures ranks_after { ranks.new ≡ lane_of values.now ranks.old }
{
    check(values, ranks.len())?;
    copy(values, ranks);
    Ok(rank_first(ranks, values.len()))
}

// Ranks the first m products of a lane, and gives their Q, zero where they are fewer than 100.
// Kept: a project rule: fixed memory, so that the lane is lent whole and its first places are ranked.
pub fn rank_first(lane: &mut [u32], m: usize) -> u64
    requires { (m ≤ length lane.old) × (m ≤ trip_limit) }
    ensures value { result ≡ q_or_zero (take m lane.old) }
    ensures lane_after { lane.new ≡ sort (take m lane.old) ++ drop m lane.old }
{
    rank::rank(&mut lane[..m]);
    if m < FEWEST {
        return 0;
    }
    q_of(&lane[..m])
}

// What is refused of values and a lane with so many places: 2, 12, 6, then 3.
#[tactic(auto, unfolding(crate::specs::Percentile::fault_of))]
fn check(values: &[u32], places: usize) -> Result<(), Refused>
    ensures { fault_in result ≡ fault_of values.now places }
{
    let n = values.len();
    if base::too_many(n) {
        return Err(Refusal::TooMany.into());
    }
    if n < FEWEST {
        return Err(Refusal::TooFewValues.into());
    }
    if places < n {
        return Err(Refusal::LaneTooShort.into());
    }
    if let Some(place) = first_bad(values) {
        return Err(Refused {
            refusal: Refusal::OutOfRange,
            place,
        });
    }
    Ok(())
}

// The index of the first value out of range.
fn first_bad(values: &[u32]) -> Option<usize>
    ensures value { unwrap_or result (length values.now) ≡ first_bad_product values.now }
    ensures within { IfSome result (λ place. place < length values.now) }
{
    values.iter().position(|value| PRODUCT < *value)
}

// Copies values to the front of a lane.
// Kept: may not change: by `copy_from_slice` the library for C would need `memmove` from outside.
fn copy(values: &[u32], lane: &mut [u32])
    requires { length values.now ≤ length lane.old }
    ensures { lane.new ≡ with_front values.now lane.old }
{
    for i in 0..values.len() {
        lane[i] = values[i];
    }
}

// Q of ranked products: j and r are the quotient and remainder of 95 M by 100.
fn q_of(ranked: &[u32]) -> u64
    requires { Ranked ranked.now }
    ensures { result ≡ q_of ranked.now }
{
    let part = 95 * ranked.len();
    let j = part / 100;
    let r = (part % 100) as u64;
    let low = u64::from(ranked[j - 1]);
    let high = u64::from(ranked[j]);
    100 * low + r * (high - low)
}
