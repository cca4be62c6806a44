// Kind 4, trim: what it says, and its fields judged in layout order.
ghost use Rattle.std.specs.Prelude.{◌≡◌, drop};
ghost use Rattle.refusals.specs.FieldsVerdict.{fields_verdict};
ghost use Rattle.bodies.specs.Trim.{trim_of, trim_fields, trim_verdict};

use super::Trim;
use limits::{HIGHEST_UNIT, LARGEST_SPAN, LARGEST_ZERO, TRIM_SIZE};
use numbers::fields::Number;
use refusals::{Reason, Verdict};
use whole::{beyond, outside};

pub fn read_trim(body: &[u8]) -> Trim
    ensures { result ≡ trim_of body.now }
{
    // one bounds check for all fields: each of a body that is whole is known to be there
    match body.first_chunk::<TRIM_SIZE>() {
        Some(whole) => trim_in(whole),
        None => trim_in(body),
    }
}

fn trim_in(body: &[u8]) -> Trim
    ensures { result ≡ trim_of body.now }
{
    Trim {
        unit: u8::at(body, 0),
        span: u32::at(body, 4),
        zero: i64::at(body, 8),
    }
}

pub fn trim_verdict(body: &[u8]) -> Verdict
    ensures { result ≡ trim_verdict body.now }
{
    if body.len() != TRIM_SIZE {
        return Reason::Trim.refused_at(body.len());
    }
    // widened by `as`, here and below: through a call of `u64::from` no proof was found
    if outside(1, u8::at(body, 0) as u64, HIGHEST_UNIT) {
        return Reason::Trim.refused_at(0);
    }
    // one by one: a loop over the three places would be as long, with an invariant besides
    if u8::at(body, 1) != 0 {
        return Reason::Trim.refused_at(1);
    }
    if u8::at(body, 2) != 0 {
        return Reason::Trim.refused_at(2);
    }
    if u8::at(body, 3) != 0 {
        return Reason::Trim.refused_at(3);
    }
    amounts_verdict(body)
}

// The fields after the zero bytes: span and zero.
fn amounts_verdict(body: &[u8]) -> Verdict
    ensures { result ≡ fields_verdict 15 (drop 5 (trim_fields body.now)) }
{
    if outside(1, u32::at(body, 4) as u64, LARGEST_SPAN) {
        return Reason::Trim.refused_at(4);
    }
    if beyond(i64::at(body, 8), LARGEST_ZERO) {
        return Reason::Trim.refused_at(8);
    }
    Ok(())
}
