// What a window is judged by, and the counts of windows: mean speed, class, curve, CO2 per km, and
// whether the window is inside its band. specs/Figure.antt judges one window from the sums over its
// seconds, specs/Counts.antt counts the windows of a trip.
#![tactic(auto)]

mod curve;
mod window;

ghost use Rattle.std.specs.Prelude.{◌≡◌, true, ◌^◌, ◌<◌, length};
ghost use Rattle.base.specs.Plan.{plan_in_range};
ghost use Rattle.base.specs.Roads.{road_number};
ghost use Rattle.base.specs.Words.{sum};
ghost use Rattle.windows.specs.Figure.{upper_of, figure_of};
ghost use Rattle.windows.specs.Inside.{KeptSpeeds, WindowSeconds, SweptLanes, figure_in, with_window, counts_of};

use base::{Plan, Road};
pub use window::Window;

// The most seconds of a window that can be judged, whatever the limit of a trip.
pub const WINDOW_MOST: usize = 32_768;

// Behind those of the three classes, the place of the windows that have none among the counts.
pub const UNCLASSED: usize = 3;

// A window judged.
#[derive(Clone, Copy)]
pub struct Figure {
    pub class: Road,
    pub inside: bool, // whether it is inside its band
}

// How many windows a class has.
#[repr(C)]
#[derive(Clone, Copy, Default)]
pub struct ClassCount {
    pub windows: u32,
    pub inside: u32,
}

impl ClassCount {
    // A class with one window more.
    fn with_window(self, inside: bool) -> ClassCount
        requires { (self.windows < 2 ^ 31) × (self.inside < 2 ^ 31) }
        ensures { result ≡ with_window inside self }
    {
        ClassCount {
            windows: self.windows + 1,
            inside: self.inside + u32::from(inside),
        }
    }
}

// Counts the windows of a trip's kept lanes, once its sweep is over and the lane of ends has the
// end of each: of each class, and of those without one.
// Kept: no plainer: the kept speeds and masses are cut from two lent lanes; a struct of the two would be made in each call.
#[tactic(auto, using(crate::proofs::Counts::starts_before, crate::proofs::Counts::ends_within, crate::proofs::Counts::ends_within_speeds))]
pub fn count_windows(plan: Plan, speeds: &[u16], co2: &[u32], ends: &[u16]) -> [ClassCount; 4]
    requires { SweptLanes plan speeds.now co2.now ends.now }
    ensures { result ≡ counts_of plan speeds.now co2.now }
{
    let mut counts = [ClassCount::default(); 4];
    for first in 0..ends.len() {
        let end = ends[first] as usize;
        let figure = judge_window(plan, &speeds[first..end], &co2[first..end]);
        let (class, inside) = counted_as(figure);
        counts[class] = counts[class].with_window(inside);
    }
    counts
}

// The place of a window among the counts, and whether it counts as inside.
// Kept: the C interface: the class of `WindowProbe` is a number beside a flag, and the counts are indexed by it.
pub fn counted_as(figure: Option<Figure>) -> (usize, bool)
    ensures { (result.0 ≡ (figure_in figure).class) × (result.1 ≡ (figure_in figure).inside) }
{
    match figure {
        Some(figure) => (figure.class.index(), figure.inside),
        None => (UNCLASSED, false),
    }
}

// Judges the window that has these seconds.
fn judge_window(plan: Plan, speeds: &[u16], co2: &[u32]) -> Option<Figure>
    requires { WindowSeconds plan speeds.now co2.now }
    ensures { figure_in result ≡ figure_of plan (sum speeds.now) (sum co2.now) (length co2.now) }
{
    let window = Window {
        s: total_speed(speeds),
        m: sweep::total(co2),
        n: co2.len(),
    };
    judge(plan, window)
}

// Judges a window, one that has a class; a faster one is in no band.
pub fn judge(plan: Plan, window: Window) -> Option<Figure>
    requires { plan_in_range plan ≡ true }
    ensures { figure_in result ≡ figure_of plan window.s window.m window.n }
{
    let class = window.class()?;
    let curve = window.curve(plan);
    let inside = window.in_band(plan.lower, upper_of(plan, class), curve);
    Some(Figure { class, inside })
}

// The upper tolerance of a class.
#[tactic(auto, unfolding(crate::specs::Figure::upper_of))]
fn upper_of(plan: Plan, class: Road) -> u8
    ensures { result ≡ upper_of plan (road_number class) }
{
    match class {
        Road::Urban => plan.urban,
        Road::Rural => plan.rural,
        Road::Motorway => plan.motorway,
    }
}

// The sum of kept speeds. Both halves are added at once, in half the steps: two speeds fit a u16.
// Kept: slower: by `map(u32::from).sum()`, and `sweep::total` by `sum()`, a trip with long windows takes more instructions than plain Rust (330 to 323 millions, and 291 so).
fn total_speed(speeds: &[u16]) -> u32
    requires { KeptSpeeds speeds.now }
    ensures { result ≡ sum speeds.now }
{
    let half = speeds.len() / 2;
    let mut total: u32 = 0;
    for i in 0..half {
        total += (speeds[i] + speeds[half + i]) as u32;
    }
    if half + half == speeds.len() {
        return total;
    }
    total + speeds[half + half] as u32
}
