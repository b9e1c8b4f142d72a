// The curve of CO2 per km at a mean speed, as the code holds it.

ghost use Rattle.std.specs.Prelude.{◌^◌, ◌<◌, ◌≤◌};

// The curve at a mean speed: (above - under) / over. It can be negative, so the difference is not
// taken before the sign is known. The comparisons have room for it.
#[derive(Clone, Copy)]
pub(crate) struct Curve {
    pub above: u64,
    pub under: u64,
    pub over: u64,
    pub ghost above_most: { above ≤ 2 ^ 54 },
    pub ghost over_least: { 0 < over },
}
