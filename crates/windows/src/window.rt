// A window as the sums over its seconds, and what is compared of it: the class of its mean speed, the
// curve there, and whether its CO2 per km is in the band. All is compared by cross-multiplying.
#![tactic(auto)]

ghost use Rattle.std.specs.Prelude.{◌≡◌, true, ◌*◌, ◌<◌, ◌≤◌};
ghost use Rattle.base.specs.Limits.{tolerance_most};
ghost use Rattle.base.specs.Plan.{plan_in_range};
ghost use Rattle.windows.specs.Figure.{mean_speed, motorway_below, class_of, line_at, curve, mass_per_km, in_band};
ghost use Rattle.windows.specs.Inside.{window_most, LineGiven, held_as, class_number};

use crate::curve::Curve;
use base::{Plan, Road};

// The mean speeds below which a window is urban, rural, motorway, 0.001 km/h.
const URBAN_BELOW: u64 = 45_000;

const RURAL_BELOW: u64 = 80_000;

const MOTORWAY_BELOW: u64 = 145_000;

// The mean speeds at which the curve has the values E1 and E2, and from each to the next.
const SPEED_OF_E1: u64 = 18_882;

const FROM_E1_TO_E2: u64 = 37_782;

const SPEED_OF_E2: u64 = 56_664;

const FROM_E2_TO_E3: u64 = 35_333;

// What a window is judged by. It has seconds, as many as can be judged, and moves; it weighs
// something, since it reaches its reference.
#[derive(Clone, Copy)]
pub struct Window {
    pub s: u32, // the sum of its speeds, 0.01 km/h
    pub m: u32, // its CO2, mg
    pub n: usize, // its length, s
    pub ghost lasts: { 0 < n },
    pub ghost few: { n ≤ window_most },
    pub ghost moves: { 0 < s },
    pub ghost weighs: { 0 < m },
}

impl Window {
    // The class of the mean speed 10s/n, none where it is too fast for one.
    #[tactic(auto, using(crate::proofs::Exact::mean_below), unfolding(crate::specs::Figure::class_of))]
    pub(crate) fn class(self) -> Option<Road>
        ensures { class_number result ≡ class_of (mean_speed self.s self.n) }
    {
        let speeds = 10 * (self.s as u64);
        let seconds = self.n as u64;
        if speeds < URBAN_BELOW * seconds {
            return Some(Road::Urban);
        }
        if speeds < RURAL_BELOW * seconds {
            return Some(Road::Rural);
        }
        if speeds < MOTORWAY_BELOW * seconds {
            return Some(Road::Motorway);
        }
        None
    }

    // The curve at the mean speed, one that has a class.
    #[tactic(auto, using(crate::proofs::Exact::mean_at_most, crate::proofs::PlanRanges::plan_ranges), unfolding(crate::specs::Figure::curve))]
    pub(crate) fn curve(self, plan: Plan) -> Curve
        requires { (plan_in_range plan ≡ true) × (10 * self.s < motorway_below * self.n) }
        ensures { held_as result ≡ curve plan (mean_speed self.s self.n) }
    {
        if 10 * (self.s as u64) <= SPEED_OF_E2 * (self.n as u64) {
            return self.on_line(plan.e1, plan.e2, SPEED_OF_E1, FROM_E1_TO_E2);
        }
        self.on_line(plan.e2, plan.e3, SPEED_OF_E2, FROM_E2_TO_E3)
    }

    // The line from the value e at speed a to the value f at speed a + w: e + (f - e)(10s/n - a) / w.
    #[tactic(auto, using(crate::proofs::Exact::bounds))]
    fn on_line(self, e: u32, f: u32, a: u64, w: u64) -> Curve
        requires { LineGiven e f a w × (10 * self.s < motorway_below * self.n) }
        ensures { held_as result ≡ line_at e f a w (mean_speed self.s self.n) }
    {
        let e = e as u64;
        let f = f as u64;
        let speeds = 10 * (self.s as u64);
        let from = a * (self.n as u64);
        let over = w * (self.n as u64);
        Curve {
            above: e * (over + from) + f * speeds,
            under: e * speeds + f * from,
            over,
        }
    }

    // Whether 100w is from (100 - lower)c to (100 + upper)c, c the curve and w the figure 360,000m/s:
    // multiplied by both denominators, in two words.
    pub(crate) fn in_band(self, lower: u8, upper: u8, curve: Curve) -> bool
        requires { lower ≤ tolerance_most }
        ensures { result ≡ in_band lower upper (held_as curve) (mass_per_km self.s self.m) }
    {
        if curve.above <= curve.under {
            return false;
        }
        let c = curve.above - curve.under;
        let figure = wide::product(100 * 360_000 * (self.m as u64), curve.over);
        let least = wide::product((100 - lower as u64) * c, self.s as u64);
        if wide::less(figure, least) {
            return false;
        }
        let most = wide::product((100 + upper as u64) * c, self.s as u64);
        !wide::less(most, figure)
    }
}
