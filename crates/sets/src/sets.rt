// A set's prescales, and its fields judged in layout order.
ghost use Rattle.std.specs.Prelude.{◌≡◌, ◌+◌, ◌*◌, ◌≤◌, length, drop};
ghost use Rattle.refusals.specs.FieldsVerdict.{fields_verdict};
ghost use Rattle.sets.specs.SetLaws.{prescale_at};
ghost use Rattle.sets.specs.Set.{prescales_of, set_fields, set_verdict, prescale_fields, coefficient_fields};
ghost use Rattle.sets.specs.Preconditions.{OrdersRead};

use crate::coefficients::coefficient;
use crate::{Prescale, Prescales};
use limits::{
    COEFFICIENT_SIZE, HIGHEST_ORDER, LARGEST_COEFFICIENT, LARGEST_MULTIPLIER, LARGEST_OFFSET,
    PRESCALE_ALGORITHM, SET_HEAD_SIZE,
};
use numbers::fields::Number;
use refusals::{Verdict, refused_at};
use whole::{beyond, outside};

pub fn read_prescales(body: &[u8]) -> Prescales
    ensures { result ≡ prescales_of body.now }
{
    // one bounds check for all fields: each of a head that is whole is known to be there
    match body.first_chunk::<SET_HEAD_SIZE>() {
        Some(head) => prescales_in(head),
        None => prescales_in(body),
    }
}

fn prescales_in(head: &[u8]) -> Prescales
    ensures { result ≡ prescales_of head.now }
{
    Prescales {
        pressure: prescale_at(head, 2, 4),
        temperature: prescale_at(head, 3, 16),
    }
}

fn prescale_at(head: &[u8], order: usize, multiplier: usize) -> Prescale
    requires { multiplier ≤ 16 }
    ensures { result ≡ prescale_at head.now order multiplier }
{
    Prescale {
        order: u8::at(head, order),
        multiplier: u32::at(head, multiplier),
        offset: u64::at(head, multiplier + 4),
    }
}

pub fn set_verdict(body: &[u8], number: u32) -> Verdict
    ensures { result ≡ set_verdict number body.now }
{
    if body.len() < 4 {
        return refused_at(number, body.len());
    }
    if u8::at(body, 0) != PRESCALE_ALGORITHM {
        return refused_at(number, 0);
    }
    if u8::at(body, 1) != PRESCALE_ALGORITHM {
        return refused_at(number, 1);
    }
    let pressure = u8::at(body, 2);
    if HIGHEST_ORDER < pressure {
        return refused_at(number, 2);
    }
    let temperature = u8::at(body, 3);
    if HIGHEST_ORDER < temperature {
        return refused_at(number, 3);
    }
    prescales_verdict(body, pressure, temperature, number)
}

// The fields after the orders, which are the body's: its length, multiplier and offset of each prescale, the coefficients.
fn prescales_verdict(body: &[u8], pressure: u8, temperature: u8, number: u32) -> Verdict
    requires { OrdersRead body.now pressure temperature }
    ensures { result ≡ fields_verdict number (drop 5 (set_fields body.now)) }
{
    let count = coefficient_count(pressure, temperature);
    if body.len() != SET_HEAD_SIZE + COEFFICIENT_SIZE * count {
        return refused_at(number, body.len());
    }
    prescale_verdict(pressure, u32::at(body, 4), u64::at(body, 8), number, 4)?;
    prescale_verdict(
        temperature,
        u32::at(body, 16),
        u64::at(body, 20),
        number,
        16,
    )?;
    coefficients_verdict(body, count, number)
}

fn coefficient_count(pressure: u8, temperature: u8) -> usize
    requires { (pressure ≤ 4) × (temperature ≤ 4) }
    ensures { (result ≡ (pressure + 1) * (temperature + 1)) × (result ≤ 25) }
{
    (usize::from(pressure) + 1) * (usize::from(temperature) + 1)
}

// Multiplier and offset of one channel, which stand at `place` and four bytes on.
fn prescale_verdict(order: u8, multiplier: u32, offset: u64, number: u32, place: usize) -> Verdict
    requires { place ≤ 16 }
    ensures { result ≡ fields_verdict number (prescale_fields order multiplier offset place) }
{
    if order == 0 {
        if multiplier != 0 {
            return refused_at(number, place);
        }
        if offset != 0 {
            return refused_at(number, place + 4);
        }
        return Ok(());
    }
    if outside(1, u64::from(multiplier), LARGEST_MULTIPLIER) {
        return refused_at(number, place);
    }
    if LARGEST_OFFSET < offset {
        return refused_at(number, place + 4);
    }
    Ok(())
}

fn coefficients_verdict(body: &[u8], count: usize, number: u32) -> Verdict
    requires { (count ≤ 25) × (length body.now ≡ 28 + 8 * count) }
    ensures { result ≡ fields_verdict number (coefficient_fields body.now count) }
{
    for i in 0..count {
        let place = SET_HEAD_SIZE + COEFFICIENT_SIZE * i;
        if beyond(coefficient(body, place), LARGEST_COEFFICIENT) {
            return refused_at(number, place);
        }
    }
    Ok(())
}
