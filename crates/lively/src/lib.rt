// Whether a bin is too lively or too dull (Appendix 7a): exact comparisons, by cross-multiplying,
// in two words where a product passes 64 bits. They hold for sums of any size that the types hold.
// s and n are the bin's sums of speeds and seconds, t the sum of its products, q its percentile.
#![tactic(auto)]

ghost use Rattle.std.specs.Prelude.{◌≡◌, ◌+◌, ◌*◌, ltb};
ghost use Rattle.lively.specs.Lively.{too_lively, too_dull, below_curve};

// Whether a bin is too lively.
// Kept: no plainer: s, n and q as in the paper, of which `reasons` would build a struct for one test.
pub fn too_lively(s: u32, n: u32, q: u64) -> bool
    ensures { result ≡ too_lively s n q }
{
    if s as u64 <= 7_460 * (n as u64) {
        return above_line(s, n, q, 5, 176_256, 1_871_424_000);
    }
    above_line(s, n, q, 25, 480_816, 12_289_968_000)
}

// Whether k times q times n is above a times s plus b times n.
fn above_line(s: u32, n: u32, q: u64, k: u32, a: u64, b: u64) -> bool
    ensures { result ≡ ltb (a * s + b * n) (k * q * n) }
{
    let line = wide::sum(wide::product(a, s as u64), wide::product(b, n as u64));
    wide::less(line, wide::product(q, k as u64 * (n as u64)))
}

// Whether a bin is too dull.
pub fn too_dull(s: u32, n: u32, t: u64) -> bool
    ensures { result ≡ too_dull s n t }
{
    if s as u64 <= 9_405 * (n as u64) {
        return below_curve(s, n, t);
    }
    t < 18 * (s as u64)
}

// Whether t lies below the curve that bounds slow bins.
fn below_curve(s: u32, n: u32, t: u64) -> bool
    ensures { result ≡ below_curve s n t }
{
    let speed = s as u64;
    let seconds = n as u64;
    let left = wide::sum(
        wide::product(t, 3_125 * seconds),
        wide::product(36 * speed, speed),
    );
    wide::less(left, wide::product(394_875 * speed, seconds))
}
