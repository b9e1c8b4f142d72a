// The kept seconds of a trip, its sweep run to the end, and its windows counted class by class.
#![tactic(auto)]

ghost use Rattle.std.specs.Prelude.{◌≡◌, length};
ghost use Rattle.base.specs.Words.{with_front};
ghost use Rattle.second.specs.Lanes.{lanes_in};
ghost use Rattle.kept.specs.Kept.{kept_of};
ghost use Rattle.sweep.specs.Sweep.{beginning, ends_after};
ghost use Rattle.sweep.specs.Window as window;
ghost use Rattle.found.specs.Found.{moves_to_end, found_in, ends_in};
ghost use Rattle.found.specs.Inside.{Findable, Kept, Sweepable};

use base::Plan;
use second::Trip;
use sweep::SweepState;
use windows::ClassCount;

// The kept seconds and windows of a trip.
#[derive(Clone, Copy)]
pub struct Found {
    pub kept: u32,
    pub windows: u32, // unclassed ones too
    pub moves: u32, // of the sweep run to its end
    pub classes: [ClassCount; 3], // urban, rural, motorway
}

// Keeps the seconds of a trip, sweeps them to the end and counts the windows. Each lent lane needs
// a place per second.
// Kept: no plainer: the three lanes are part of trip's workspace, which stands above this crate.
#[tactic(auto, using(crate::proofs::Keeps::front_long))]
pub fn find(
    plan: Plan,
    trip: &Trip<'_>,
    kept_speeds: &mut [u16],
    kept_co2: &mut [u32],
    ends: &mut [u16],
) -> Found
    requires { let lanes = lanes_in trip.now in
        Findable plan lanes.states lanes.speeds lanes.co2 (length kept_speeds.old) (length kept_co2.old) (length ends.old) }
    ensures { let lanes = lanes_in trip.now in
        let keeps = kept_of lanes.states lanes.speeds in
        let kept_speed_values = keeps lanes.speeds in
        let kept_co2_values = keeps lanes.co2 in
        (result ≡ found_in plan kept_speed_values kept_co2_values)
        × (kept_speeds.new ≡ with_front kept_speed_values kept_speeds.old)
        × (kept_co2.new ≡ with_front kept_co2_values kept_co2.old)
        × (ends.new ≡ ends_in plan kept_co2_values ends.old) }
{
    let count = kept::keep(trip, kept_speeds, kept_co2);
    find_in(plan, &kept_speeds[..count], &kept_co2[..count], ends)
}

// Sweeps kept seconds to the end and counts the windows.
fn find_in(plan: Plan, speeds: &[u16], co2: &[u32], ends: &mut [u16]) -> Found
    requires { Kept plan speeds.now co2.now (length ends.old) }
    ensures { let masses = co2.now in
        (result ≡ found_in plan speeds.now masses)
        × (ends.new ≡ ends_in plan masses ends.old) }
{
    let swept = sweep_all(plan.reference, co2, ends);
    let windows = swept.dropped as usize;
    let [urban, rural, motorway, _] = windows::count_windows(plan, speeds, co2, &ends[..windows]);
    Found {
        kept: co2.len() as u32,
        windows: windows as u32,
        moves: swept.moves as u32,
        classes: [urban, rural, motorway],
    }
}

// Sweeps the kept seconds from the beginning to the end: twice as many moves as there are kept
// seconds are enough, since each is taken once and dropped once at most.
fn sweep_all(reference: u32, co2: &[u32], ends: &mut [u16]) -> SweepState
    requires { Sweepable reference co2.now (length ends.old) }
    ensures { let masses = co2.now in
        let moves = moves_to_end reference masses in
        (result.dropped ≡ window.windows reference masses)
        × (result.moves ≡ moves)
        × (ends.new ≡ ends_after reference masses moves beginning ends.old) }
{
    let start = SweepState::default();
    let enough = 2 * (co2.len() as u64);
    let swept = sweep::sweep(reference, co2, ends, start, enough);
    swept.state
}
