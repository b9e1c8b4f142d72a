// What is refused of a trip, and the answer of a refusal.

ghost use Rattle.std.specs.Prelude.{◌≡◌};
ghost use Rattle.base.specs.Refusal.{fault_of, fault_in};
ghost use Rattle.second.specs.Lanes.{lanes_in};
ghost use Rattle.trip.specs.Refusals.{too_short, trip_fault};
ghost use Rattle.trip.specs.Trip.{refused};

use crate::{Evaluated, Rooms};
use base::{Plan, Refusal, Refused};
use second::Trip;

// Refuses a trip: 5, 1, 2, 6, 3, then 4.
#[tactic(auto, unfolding(crate::specs::Refusals::trip_fault))]
pub fn check(plan: Plan, trip: &Trip<'_>, rooms: Rooms) -> Result<(), Refused>
    ensures { fault_in result ≡ trip_fault plan (lanes_in trip.now) rooms }
{
    if !base::plan_in_range(plan) {
        return Err(Refusal::PlanOutOfRange.into());
    }
    if !trip.agree() {
        return Err(Refusal::LanesDiffer.into());
    }
    if base::too_many(trip.seconds()) {
        return Err(Refusal::TooMany.into());
    }
    if too_short(rooms, trip.seconds()) {
        return Err(Refusal::LaneTooShort.into());
    }
    if let Some(place) = second::first_bad(trip) {
        let refusal = Refusal::OutOfRange;
        return Err(Refused { refusal, place });
    }
    if second::none_has_values(trip.states) {
        return Err(Refusal::NoSecond.into());
    }
    Ok(())
}

// Whether a lent lane has no place for one of n seconds.
#[tactic(auto, unfolding(crate::specs::Refusals::too_short))]
fn too_short(rooms: Rooms, n: usize) -> bool
    ensures { result ≡ too_short rooms n }
{
    (rooms.speeds < n) | (rooms.co2 < n) | (rooms.ends < n) | (rooms.ranks < n)
}

// The answer of a refusal: its number and place, and zeros.
#[tactic(auto, unfolding(crate::specs::Trip::refused))]
pub fn refused_for(reason: Refused) -> Evaluated
    ensures { result ≡ refused (fault_of reason) }
{
    Evaluated {
        refusal: reason.refusal.into(),
        place: reason.place,
        ..Evaluated::default()
    }
}
