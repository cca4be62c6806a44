// A channel's frequency, and X: the frequency prescaled.
ghost use Rattle.std.specs.Prelude.{◌≡◌, pos, ◌*ℤ◌};
ghost use Rattle.reading.specs.Frequency.{frequency_of, prescaled_of};
ghost use Rattle.reading.specs.FrequencyLaws.{SameOrFar};

use crate::Channel;
use crate::checks::{ask, limited};
use limits::{
    HIGHEST_FREQUENCY, LARGEST_MULTIPLIER, LARGEST_X, LOWEST_FREQUENCY, MOST_SENSOR_CYCLES,
    REFERENCE_FREQUENCY,
};
use refusals::{Reason, Refusal};
use sets::Prescale;
use whole::outside;
use whole::rounding::{rounded_over, rounded_quotient};

// F, in 1/65,536 Hz.
pub fn frequency(channel: u64, counts: Channel) -> Result<i64, Refusal>
    ensures { result ≡ frequency_of channel counts.sensor.0 counts.reference.0 }
{
    let cycles = counts.sensor.0;
    let references = counts.reference.0;
    ask(
        !outside(1, cycles, MOST_SENSOR_CYCLES),
        Reason::SensorCycles,
        channel,
    )?;
    ask(0 < references, Reason::ReferenceCycles, channel)?;
    let hertz = rounded_quotient(REFERENCE_FREQUENCY * cycles, references);
    ask(
        !outside(LOWEST_FREQUENCY, hertz, HIGHEST_FREQUENCY),
        Reason::Frequency,
        channel,
    )?;
    Ok(hertz as i64)
}

// Farther from 0 than any product by which X is within its limit.
const FAR: u64 = 1 << 62;

// The product, or where it might have no room in 64 bits a number that is far from 0 as it is. By 64 bits alone: the product of 128, by which
// std's `saturating_mul` is tested, is a call of `__multi3` on a machine of 32.
fn product(multiplier: u32, difference: i64) -> i64
    ensures { SameOrFar result (pos multiplier *ℤ difference) }
{
    let factor = u64::from(multiplier);
    let distance = difference.unsigned_abs();
    // as by every set that is right, so that no reading waits for a division
    if factor <= LARGEST_MULTIPLIER {
        if distance < 8589934592 {
            return i64::from(multiplier) * difference;
        }
    }
    if factor == 0 {
        return 0;
    }
    if FAR / factor < distance {
        return i64::MAX;
    }
    i64::from(multiplier) * difference
}

// X of a frequency.
pub fn prescaled(detail: u64, prescale: Prescale, frequency: i64) -> Result<i64, Refusal>
    ensures { result ≡ prescaled_of detail prescale frequency }
{
    if prescale.order == 0 {
        return Ok(0);
    }
    // where a difference or a product has no room in 64 bits, X is far beyond its limit, and so it is of the nearest one that has
    let difference = frequency.saturating_sub_unsigned(prescale.offset);
    let product = product(prescale.multiplier, difference);
    let x = rounded_over::<32>(product);
    limited(LARGEST_X, Reason::FarFromCalibration, detail, x)
}
