// Signed whole numbers: a quotient rounded, and how far a number is from 0. Every function answers for every input.
#![tactic(auto)]

ghost use Rattle.std.specs.Prelude.{◌≡◌, not, ◌&&◌, leb, nat_abs, ◌+ℤ◌};
ghost use Rattle.whole.specs.Wrapped.{wrapped};

pub mod rounding;

// How far z is from 0.
pub fn magnitude(z: i64) -> u64
    ensures { result ≡ nat_abs z }
{
    z.unsigned_abs()
}

// Not from low to high.
pub fn outside(low: u64, number: u64, high: u64) -> bool
    ensures { result ≡ not (leb low number && leb number high) }
{
    !(low..=high).contains(&number)
}

// Farther from 0 than the limit.
pub fn beyond(number: i64, limit: u64) -> bool
    ensures { result ≡ not (leb (nat_abs number) limit) }
{
    // not by the distance from 0: of these two comparisons the compiler makes one
    i64::try_from(limit).is_ok_and(|most| number < -most || most < number)
}

// The wrapping sum: a + b, or where that does not fit the number that differs from it by 2^64.
#[tactic(auto, using(crate::specs::WrappedLaws::wrapping_sum))]
pub fn wrapped_sum(a: i64, b: i64) -> i64
    ensures { result ≡ wrapped (a +ℤ b) }
{
    a.wrapping_add(b)
}
