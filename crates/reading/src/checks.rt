// Checks on the way to a reading: what must hold, and the refusal where it doesn't.
ghost use Rattle.std.specs.Prelude.{◌≡◌};
ghost use Rattle.refusals.specs.Refusals.{ask};
ghost use Rattle.refusals.specs.Reasons.{number_of};
ghost use Rattle.reading.specs.Value.{within};

use refusals::{Reason, Refusal, Verdict};
use whole::beyond;

pub fn ask(holds: bool, reason: Reason, detail: u64) -> Verdict
    ensures { result ≡ ask holds (number_of reason) detail }
{
    if holds {
        Ok(())
    } else {
        reason.refused(detail)
    }
}

// z, where it lies within `most` either side of 0.
pub fn limited(most: u64, reason: Reason, detail: u64, z: i64) -> Result<i64, Refusal>
    ensures { result ≡ within most (number_of reason) detail z }
{
    ask(!beyond(z, most), reason, detail)?;
    Ok(z)
}
