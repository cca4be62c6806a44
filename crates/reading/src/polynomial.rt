// The sum of a set: each row in XT, then the rows' sums in XP.
ghost use Rattle.std.specs.Prelude.{◌≡◌, ◌≤◌, pos, nat_abs};
ghost use Rattle.std.specs.List.{list_all};
ghost use Rattle.std.specs.Ordering.{int_eq};
ghost use Rattle.limits.specs.Limits.{largest_sum};
ghost use Rattle.reading.specs.Gauge.{set_of};
ghost use Rattle.reading.specs.Polynomial.{step_of, row_sum, row_step, grid_sum, set_result};

use crate::checks::limited;
use crate::frequency::prescaled;
use crate::prescaled::Prescaled;
use limits::{GRID_SIZE, LARGEST_RESULT, LARGEST_SUM};
use refusals::{Reason, Refusal};
use whole::rounding::rounded_over;
use whole::wrapped_sum;

// One step of a running sum.
fn step(kind: u64, by: Prescaled, coefficient: i64, sum: i64) -> Result<i64, Refusal>
    requires { nat_abs sum ≤ largest_sum }
    ensures { result ≡ step_of kind by.x coefficient sum }
{
    let turn = rounded_over::<24>(sum * by.x);
    // where the sum does not fit, what is left of it is beyond the limit too
    let next = wrapped_sum(coefficient, turn);
    limited(LARGEST_SUM, Reason::SumTooLarge, kind, next)
}

fn row_sum(kind: u64, by: Prescaled, row: &[i64; GRID_SIZE]) -> Result<i64, Refusal>
    ensures { result ≡ row_sum kind by.x row.now }
{
    let mut sum = 0;
    for coefficient in row.iter().rev() {
        sum = step(kind, by, *coefficient, sum)?;
    }
    Ok(sum)
}

fn is_zero(row: &[i64; GRID_SIZE]) -> bool
    ensures { result ≡ list_all (λ z. int_eq z (pos 0)) row.now }
{
    row.iter().all(|coefficient| *coefficient == 0)
}

// One step of the rows' running sum: a row's own sum is the coefficient.
fn row_step(
    kind: u64,
    by_pressure: Prescaled,
    by_temperature: Prescaled,
    row: &[i64; GRID_SIZE],
    sum: i64,
) -> Result<i64, Refusal>
    requires { nat_abs sum ≤ largest_sum }
    ensures { result ≡ row_step kind by_pressure.x by_temperature.x row.now sum }
{
    // an absent row under absent rows adds nothing
    if sum == 0 && is_zero(row) {
        return Ok(0);
    }
    step(kind, by_pressure, row_sum(kind, by_temperature, row)?, sum)
}

// The loop is `row_sum`'s with another step. One function of both would take the step as a closure, whose precondition on the
// running sum every call would have to state again.
fn grid_sum(
    kind: u64,
    by_pressure: Prescaled,
    by_temperature: Prescaled,
    grid: [[i64; GRID_SIZE]; GRID_SIZE],
) -> Result<i64, Refusal>
    ensures { result ≡ grid_sum kind by_pressure.x by_temperature.x grid }
{
    let mut sum = 0;
    for row in grid.iter().rev() {
        sum = row_step(kind, by_pressure, by_temperature, row, sum)?;
    }
    Ok(sum)
}

// The result of the set that a body holds, from its own prescale of both frequencies.
pub fn set_result(kind: u64, first: u64, body: &[u8], fp: i64, ft: i64) -> Result<i64, Refusal>
    requires { first ≤ 3 }
    ensures { result ≡ set_result kind first (set_of body.now) fp ft }
{
    let set = sets::read_prescales(body);
    let by_pressure = Prescaled {
        x: prescaled(first, set.pressure, fp)?,
    };
    let by_temperature = Prescaled {
        x: prescaled(first + 1, set.temperature, ft)?,
    };
    let sum = grid_sum(kind, by_pressure, by_temperature, sets::read_grid(body))?;
    limited(LARGEST_RESULT, Reason::ResultTooLarge, kind, sum)
}
