// A quotient rounded to the nearest whole number, halves upward.
ghost use Rattle.std.specs.Prelude.{◌≡◌, ◌+◌, ◌<◌, ◌≤◌, ◌^◌, pos};
ghost use Rattle.whole.specs.Rounded.{rounded};

// n / d; 0 where d is 0.
pub fn rounded_quotient(n: u64, d: u64) -> u64
    ensures { pos result ≡ rounded (pos n) d }
{
    if d == 0 {
        return 0;
    }
    let quotient = n / d;
    let remainder = n % d;
    // twice the remainder is d or more, said so that no sum wraps
    if d - d / 2 <= remainder {
        return quotient + 1;
    }
    quotient
}

// n / 2^POWER.
pub fn rounded_over<const POWER: u32>(n: i64) -> i64
    ensures { result ≡ rounded n (2 ^ POWER) }
{
    if POWER == 0 {
        return n;
    }
    // n is less than half of 2^POWER, or just half below zero
    if 63 < POWER {
        return 0;
    }
    rounded_by_half(n, half_of(POWER), POWER)
}

// Half of 2^power.
fn half_of(power: u32) -> u64
    requires { (1 ≤ power) × (power < 64) }
    ensures { result + result ≡ 2 ^ power }
{
    1 << (power - 1)
}

// n / 2^power, where `half` is half of 2^power: the greatest whole number at most (n + half) / 2^power.
fn rounded_by_half(n: i64, half: u64, power: u32) -> i64
    requires { (half + half ≡ 2 ^ power) × (power < 64) }
    ensures { result ≡ rounded n (2 ^ power) }
{
    let more = half as i64;
    // so near the highest number that the sum would not fit
    if i64::MAX - more < n {
        return ((n - more) >> power) + 1;
    }
    (n + more) >> power
}
