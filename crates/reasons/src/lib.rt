// The sixteen reasons why a trip is not valid, one test of the trip's figures each, and one line of
// specs/Reasons.antt. Means and shares are compared by cross-multiplying, so an empty part sets
// neither 4 nor 5.
#![tactic(auto)]

mod numbers;

ghost use Rattle.std.specs.Prelude.{◌≡◌, ltb};
ghost use Rattle.base.specs.Roads.{road_number};
ghost use Rattle.reasons.specs.Numbers.{distance_least, other_share_least, other_share_most};
ghost use Rattle.reasons.specs.Reasons.{bin, holds, share_is_outside, has_few, is_lively, is_dull, under_half, trip_length, missing_seconds, short_part, share_of_distance, urban_mean, slow_seconds, few_fast_seconds, too_fast, ends_apart, too_high, too_much_climb, few_products, lively_bin, dull_bin, no_windows, outside_band};
ghost use Rattle.reasons.specs.Inside.{named};

use base::Road;
use bins::Bin;
use tally::Counts;
use windows::ClassCount;

// A reason, in the order of the verdict's bits.
#[derive(Clone, Copy, PartialEq, Eq)]
pub enum Reason {
    TripLength,
    MissingSeconds,
    ShortPart,
    ShareOfDistance,
    UrbanMean,
    SlowSeconds,
    FewFastSeconds,
    TooFast,
    EndsApart,
    TooHigh,
    TooMuchClimb,
    FewProducts,
    LivelyBin,
    DullBin,
    NoWindows,
    OutsideBand,
}

// What the reasons are judged from. Bins and classes stand in the order urban, rural, motorway; the
// bins are the parts of the trip.
#[derive(Clone, Copy)]
pub struct Figures {
    pub seconds: u32, // n, all seconds
    pub counts: Counts,
    pub distance: u32, // total S
    pub apart: bool, // first and last recorded altitude differ by over 10,000
    pub high: bool, // a corrected altitude is above 130,000
    pub climb: u64, // cm
    pub bins: [Bin; 3],
    pub classes: [ClassCount; 3],
}

impl Reason {
    // All of them, in the order of their bits.
    pub const ALL: [Reason; 16] = [
        Reason::TripLength,
        Reason::MissingSeconds,
        Reason::ShortPart,
        Reason::ShareOfDistance,
        Reason::UrbanMean,
        Reason::SlowSeconds,
        Reason::FewFastSeconds,
        Reason::TooFast,
        Reason::EndsApart,
        Reason::TooHigh,
        Reason::TooMuchClimb,
        Reason::FewProducts,
        Reason::LivelyBin,
        Reason::DullBin,
        Reason::NoWindows,
        Reason::OutsideBand,
    ];

    // Whether it holds of a trip with these figures.
    pub fn holds(self, figures: &Figures) -> bool
        ensures { result ≡ holds (named self) figures.now }
    {
        match self {
            Reason::TripLength => figures.trip_length(),
            Reason::MissingSeconds => figures.missing_seconds(),
            Reason::ShortPart => figures.short_part(),
            Reason::ShareOfDistance => figures.share_of_distance(),
            Reason::UrbanMean => figures.urban_mean(),
            Reason::SlowSeconds => figures.slow_seconds(),
            Reason::FewFastSeconds => figures.few_fast_seconds(),
            Reason::TooFast => figures.too_fast(),
            Reason::EndsApart => figures.ends_apart(),
            Reason::TooHigh => figures.too_high(),
            Reason::TooMuchClimb => figures.too_much_climb(),
            Reason::FewProducts => figures.few_products(),
            Reason::LivelyBin => figures.lively_bin(),
            Reason::DullBin => figures.dull_bin(),
            Reason::NoWindows => figures.no_windows(),
            Reason::OutsideBand => figures.outside_band(),
        }
    }
}

#[tactic(auto, unfolding(crate::specs::Reasons::holds))]
impl Figures {
    // 0: n outside 5,400 to 7,200.
    pub fn trip_length(&self) -> bool
        ensures { result ≡ holds trip_length self.now }
    {
        !(numbers::TRIP_LEAST..=numbers::TRIP_MOST).contains(&self.seconds)
    }

    // 1: 100 times missing not below n, or over 30 missing in a row.
    pub fn missing_seconds(&self) -> bool
        ensures { result ≡ holds missing_seconds self.now }
    {
        let seconds = self.seconds as u64;
        let missing = self.counts.missing as u64;
        (seconds <= numbers::MISSING_TIMES * missing) | (numbers::GAP_MOST < self.counts.gap)
    }

    // 2: a part's S below 5,760,000.
    pub fn short_part(&self) -> bool
        ensures { result ≡ holds short_part self.now }
    {
        self.bins.iter().any(is_short)
    }

    // 3: a part's share of S outside, in percent, urban 29 to 44, rural and motorway 23 to 43.
    pub fn share_of_distance(&self) -> bool
        ensures { result ≡ holds share_of_distance self.now }
    {
        let [urban, rural, motorway] = self.bins;
        let total = self.distance;
        share_is_outside(
            numbers::URBAN_SHARE_LEAST,
            numbers::URBAN_SHARE_MOST,
            total,
            urban.distance,
        ) | other_is_outside(total, rural.distance)
            | other_is_outside(total, motorway.distance)
    }

    // 4: urban mean outside 1,500 to 4,000.
    pub fn urban_mean(&self) -> bool
        ensures { result ≡ holds urban_mean self.now }
    {
        let urban = self.bin(Road::Urban);
        let seconds = urban.seconds as u64;
        let low = numbers::URBAN_MEAN_LEAST * seconds;
        let high = numbers::URBAN_MEAN_MOST * seconds;
        !(low..=high).contains(&(urban.distance as u64))
    }

    // 5: urban seconds below 100 not 6 to 30 percent of urban seconds.
    pub fn slow_seconds(&self) -> bool
        ensures { result ≡ holds slow_seconds self.now }
    {
        let urban = self.bin(Road::Urban);
        share_is_outside(
            numbers::SLOW_SHARE_LEAST,
            numbers::SLOW_SHARE_MOST,
            urban.seconds,
            self.counts.slow,
        )
    }

    // 6: fewer than 300 seconds above 10,000.
    pub fn few_fast_seconds(&self) -> bool
        ensures { result ≡ holds few_fast_seconds self.now }
    {
        self.counts.fast < numbers::FAST_LEAST
    }

    // 7: a speed above 16,000, or seconds above 14,500 over 3 percent of motorway seconds.
    pub fn too_fast(&self) -> bool
        ensures { result ≡ holds too_fast self.now }
    {
        let seconds = self.bin(Road::Motorway).seconds as u64;
        let faster = self.counts.faster as u64;
        (0 < self.counts.fastest)
            | (numbers::FASTER_SHARE_MOST * seconds < numbers::PERCENT * faster)
    }

    // 8: first and last recorded altitude differ by over 10,000.
    pub fn ends_apart(&self) -> bool
        ensures { result ≡ holds ends_apart self.now }
    {
        self.apart
    }

    // 9: a corrected altitude above 130,000.
    pub fn too_high(&self) -> bool
        ensures { result ≡ holds too_high self.now }
    {
        self.high
    }

    // 10: 300 times climb not below total S.
    pub fn too_much_climb(&self) -> bool
        ensures { result ≡ holds too_much_climb self.now }
    {
        climb::too_steep(self.climb, self.distance)
    }

    // 11: a bin with M below 100.
    pub fn few_products(&self) -> bool
        ensures { result ≡ holds few_products self.now }
    {
        self.bins.iter().any(has_few)
    }

    // 12: a bin too lively; one with M below 100 is not judged.
    pub fn lively_bin(&self) -> bool
        ensures { result ≡ holds lively_bin self.now }
    {
        self.bins.iter().any(is_lively)
    }

    // 13: a bin too dull; one with M below 100 is not judged.
    pub fn dull_bin(&self) -> bool
        ensures { result ≡ holds dull_bin self.now }
    {
        self.bins.iter().any(is_dull)
    }

    // 14: a class without windows.
    pub fn no_windows(&self) -> bool
        ensures { result ≡ holds no_windows self.now }
    {
        self.classes.iter().any(|class| class.windows == 0)
    }

    // 15: a class with windows, under half inside.
    pub fn outside_band(&self) -> bool
        ensures { result ≡ holds outside_band self.now }
    {
        self.classes.iter().any(under_half)
    }

    // The figures of one bin.
    fn bin(&self, road: Road) -> Bin
        ensures { result ≡ bin self.now (road_number road) }
    {
        self.bins[road.index()]
    }
}

// Whether a part's S is too small.
fn is_short(part: &Bin) -> bool
    ensures { result ≡ ltb part.now.distance distance_least }
{
    part.distance < numbers::DISTANCE_LEAST
}

// Whether the rural or the motorway share of the distance is outside its range.
fn other_is_outside(total: u32, distance: u32) -> bool
    ensures { result ≡ share_is_outside other_share_least other_share_most total distance }
{
    share_is_outside(
        numbers::OTHER_SHARE_LEAST,
        numbers::OTHER_SHARE_MOST,
        total,
        distance,
    )
}

// Whether a part is outside low to high percent of the whole.
fn share_is_outside(low: u8, high: u8, whole: u32, part: u32) -> bool
    ensures { result ≡ share_is_outside low high whole part }
{
    let least = low as u64 * whole as u64;
    let most = high as u64 * whole as u64;
    !(least..=most).contains(&(numbers::PERCENT * part as u64))
}

// Whether a bin has too few products to be judged for 12 and 13.
fn has_few(bin: &Bin) -> bool
    ensures { result ≡ has_few bin.now }
{
    (bin.m as usize) < percentile::FEWEST
}

// Whether a bin is judged, and too lively.
fn is_lively(bin: &Bin) -> bool
    ensures { result ≡ is_lively bin.now }
{
    !has_few(bin) & lively::too_lively(bin.distance, bin.seconds, bin.q)
}

// Whether a bin is judged, and too dull.
fn is_dull(bin: &Bin) -> bool
    ensures { result ≡ is_dull bin.now }
{
    !has_few(bin) & lively::too_dull(bin.distance, bin.seconds, bin.t)
}

// Whether a class has windows, and under half of them inside.
fn under_half(class: &ClassCount) -> bool
    ensures { result ≡ under_half class.now }
{
    let windows = class.windows as u64;
    let inside = class.inside as u64;
    (0 < windows) & (2 * inside < windows)
}
