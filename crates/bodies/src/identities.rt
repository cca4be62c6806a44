// Kind 1, identity: what it says, and its fields judged in layout order.
ghost use Rattle.std.specs.Prelude.{cond, ◌≡◌, ◌≤◌, drop};
ghost use Rattle.refusals.specs.FieldsVerdict.{fields_verdict};
ghost use Rattle.bodies.specs.Identity.{identity_of, identity_fields, identity_verdict, leap_year, days_in};
ghost use Rattle.bodies.specs.MonthLaws.{missing_days};

use super::Identity;
use limits::{FIRST_YEAR, IDENTITY_SIZE, LAST_YEAR};
use numbers::fields::Number;
use refusals::{Reason, Verdict};
use whole::outside;

pub fn read_identity(body: &[u8]) -> Identity
    ensures { result ≡ identity_of body.now }
{
    // one bounds check for all fields: each of a body that is whole is known to be there
    match body.first_chunk::<IDENTITY_SIZE>() {
        Some(whole) => identity_in(whole),
        None => identity_in(body),
    }
}

fn identity_in(body: &[u8]) -> Identity
    ensures { result ≡ identity_of body.now }
{
    Identity {
        serial: u32::at(body, 0),
        year: u16::at(body, 4),
        month: u8::at(body, 6),
        day: u8::at(body, 7),
        tmin: i32::at(body, 8),
        tmax: i32::at(body, 12),
        pmin: i32::at(body, 16),
        pmax: i32::at(body, 20),
    }
}

pub fn identity_verdict(body: &[u8]) -> Verdict
    ensures { result ≡ identity_verdict body.now }
{
    if body.len() != IDENTITY_SIZE {
        return Reason::Identity.refused_at(body.len());
    }
    date_verdict(body)
}

// The fields after the length.
fn date_verdict(body: &[u8]) -> Verdict
    ensures { result ≡ fields_verdict 11 (drop 1 (identity_fields body.now)) }
{
    let year = u16::at(body, 4);
    // widened by `as`, here and below: through a call of `u64::from` no proof was found
    if outside(FIRST_YEAR, year as u64, LAST_YEAR) {
        return Reason::Identity.refused_at(4);
    }
    let month = u8::at(body, 6);
    if outside(1, month as u64, 12) {
        return Reason::Identity.refused_at(6);
    }
    if outside(1, u8::at(body, 7) as u64, days_in(year, month) as u64) {
        return Reason::Identity.refused_at(7);
    }
    limits_verdict(body)
}

// The fields after the date.
fn limits_verdict(body: &[u8]) -> Verdict
    ensures { result ≡ fields_verdict 11 (drop 4 (identity_fields body.now)) }
{
    let tmin = i32::at(body, 8);
    let tmax = i32::at(body, 12);
    if tmax < tmin {
        return Reason::Identity.refused_at(12);
    }
    let pmin = i32::at(body, 16);
    let pmax = i32::at(body, 20);
    if pmax < pmin {
        return Reason::Identity.refused_at(20);
    }
    Ok(())
}

fn leap_year(year: u16) -> bool
    ensures { result ≡ leap_year year }
{
    year % 4 == 0 && (year % 100 != 0 || year % 400 == 0)
}

fn february(year: u16) -> u8
    ensures { result ≡ cond (leap_year year) 29 28 }
{
    if leap_year(year) { 29 } else { 28 }
}

// The leap rule: the days that February lacks of 30. No other month lacks any.
fn missing_days(year: u16, month: u8) -> u8
    ensures { result ≡ missing_days year month }
{
    if month != 2 {
        return 0;
    }
    30 - february(year)
}

// The odd months have 31 days until July, the even ones from August on.
fn days_in(year: u16, month: u8) -> u8
    requires { (1 ≤ month) × (month ≤ 12) }
    ensures { result ≡ days_in year month }
{
    30 + (month + month / 8) % 2 - missing_days(year, month)
}
