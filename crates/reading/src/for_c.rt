// An answer as C gets it.
ghost use Rattle.std.specs.Prelude.{◌≡◌};
ghost use Rattle.reading.specs.ForC.{answer_for_c};

use crate::Answer;

// Number 0 and a reading: pressure in 1/65,536 of the unit, temperature in 1/65,536 degrees Celsius, and the mark, the sum of
// BJORKNEVE_MARK_TEMPERATURE where the temperature lies outside the gauge's limits and BJORKNEVE_MARK_PRESSURE where the pressure
// does, in psi and before trim. Else the refusal's number and detail, and 0 for each value.
#[repr(C)]
#[derive(Clone, Copy)]
pub struct AnswerForC {
    pub number: u32,
    pub detail: u64,
    pub pressure: i64,
    pub temperature: i64,
    pub unit: u8,
    pub mark: u8,
}

impl From<Answer> for AnswerForC {
    ghost from_gives = { λ answer for_c. for_c ≡ answer_for_c answer };

    fn from(answer: Answer) -> AnswerForC {
        match answer {
            Ok(reading) => AnswerForC {
                number: 0,
                detail: 0,
                pressure: reading.pressure,
                temperature: reading.temperature,
                unit: reading.unit,
                mark: reading.mark,
            },
            Err(refusal) => AnswerForC {
                number: refusal.number,
                detail: refusal.detail,
                pressure: 0,
                temperature: 0,
                unit: 0,
                mark: 0,
            },
        }
    }
}
