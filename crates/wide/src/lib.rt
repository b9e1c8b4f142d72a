// Unsigned numbers of two words, for the exact comparisons, whose products and sums pass 64 bits.
#![tactic(auto)]

ghost use Rattle.std.specs.Prelude.{◌≡◌, ◌+◌, ◌*◌, ◌^◌, ◌<◌, nat_lt};
ghost use Rattle.wide.specs.Inside.{value};

// The number hi * 2^64 + lo.
// Kept: may not change: `value` and the wrong programs of its words and carries, of which a `u128` has none.
#[derive(Clone, Copy, PartialEq, Eq, PartialOrd, Ord)]
pub struct Wide {
    pub hi: u64,
    pub lo: u64,
}

// The whole product of two words.
pub fn product(a: u64, b: u64) -> Wide
    ensures { value result ≡ a * b }
{
    let (lo, hi) = a.carrying_mul(b, 0);
    Wide { hi, lo }
}

// The sum, where the high words leave room for a carry.
pub fn sum(a: Wide, b: Wide) -> Wide
    requires { a.hi + b.hi + 1 < 2 ^ 64 }
    ensures { value result ≡ value a + value b }
{
    let (lo, carry) = a.lo.carrying_add(b.lo, false);
    let hi = a.hi + b.hi + carry as u64;
    Wide { hi, lo }
}

// Whether a is below b: the high words decide, or the low words where the high ones are equal.
pub fn less(a: Wide, b: Wide) -> bool
    ensures { result ≡ nat_lt (value a) (value b) }
{
    a < b
}
