// Mark and trim: what is shown of a pressure and a temperature.
ghost use Rattle.std.specs.Prelude.{◌≡◌, ◌≤◌, ◌^◌, pos, nat_abs, ◌*ℤ◌};
ghost use Rattle.limits.specs.Limits.{largest_result};
ghost use Rattle.reading.specs.Measured.{outside, mark_of, trimmed_by, shown_by};

use crate::checks::ask;
use crate::{Answer, Reading};
use bodies::{Identity, Trim};
use limits::LARGEST_ZERO;
use refusals::Reason;
use whole::beyond;
use whole::rounding::rounded_over;

// A gauge's limit, a whole number, in 1/65,536.
fn in_units(limit: i32) -> i64
    ensures { result ≡ limit *ℤ pos 65536 }
{
    i64::from(limit) * 65536
}

fn lies_outside(z: i64, low: i32, high: i32) -> bool
    ensures { result ≡ outside z low high }
{
    z < in_units(low) || in_units(high) < z
}

pub fn mark(identity: Identity, pressure: i64, temperature: i64) -> u8
    ensures { result ≡ mark_of identity pressure temperature }
{
    u8::from(lies_outside(temperature, identity.tmin, identity.tmax))
        + 2 * u8::from(lies_outside(pressure, identity.pmin, identity.pmax))
}

fn trimmed(trim: Trim, pressure: i64) -> i64
    requires { (nat_abs trim.zero ≤ 2 ^ 40) × (nat_abs pressure ≤ largest_result) }
    ensures { result ≡ trimmed_by trim pressure }
{
    trim.zero + rounded_over::<28>(i64::from(trim.span) * pressure)
}

pub fn shown_by(trim: Option<Trim>, pressure: i64, temperature: i64, mark: u8) -> Answer
    requires { nat_abs pressure ≤ largest_result }
    ensures { result ≡ shown_by trim pressure temperature mark }
{
    let Some(trim) = trim else {
        return Ok(Reading {
            pressure,
            temperature,
            unit: 1,
            mark,
        });
    };
    ask(!beyond(trim.zero, LARGEST_ZERO), Reason::Trim, 0)?;
    Ok(Reading {
        pressure: trimmed(trim, pressure),
        temperature,
        unit: trim.unit,
        mark,
    })
}
