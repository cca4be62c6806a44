// From counts to an answer: both frequencies, the results of both sets, then what is shown.
ghost use Rattle.std.specs.Prelude.{◌≡◌};
ghost use Rattle.reading.specs.Gauge.{gauge_of};
ghost use Rattle.reading.specs.Measured.{measured_of};

use crate::frequency::frequency;
use crate::polynomial::set_result;
use crate::shown::{mark, shown_by};
use crate::{Answer, Counts};
use bodies::{Identity, Trim};

// What the counts come to. Each set comes as its body, and is read when its turn comes.
pub fn measured(
    counts: Counts,
    identity: Identity,
    pressure_set: &[u8],
    temperature_set: &[u8],
    trim: Option<Trim>,
) -> Answer
    ensures { result ≡ measured_of counts (gauge_of identity pressure_set.now temperature_set.now trim) }
{
    let fp = frequency(1, counts.pressure)?;
    let ft = frequency(2, counts.temperature)?;
    let pressure = set_result(2, 1, pressure_set, fp, ft)?;
    let temperature = set_result(3, 3, temperature_set, fp, ft)?;
    let mark = mark(identity, pressure, temperature);
    shown_by(trim, pressure, temperature, mark)
}
