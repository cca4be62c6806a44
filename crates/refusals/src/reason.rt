// Why anything is refused: document 01's table, each row by its number.
ghost use Rattle.std.specs.Prelude.{◌≡◌};
ghost use Rattle.refusals.specs.Reasons.{number_of};
ghost use Rattle.refusals.specs.Refusals.{refusal};
ghost use Rattle.refusals.specs.FieldsVerdict.{refused_at};

use crate::{Refusal, Verdict};

#[derive(Clone, Copy)]
pub enum Reason {
    // a text; the detail is the line
    NotARecord = 1,
    Checksum = 2,
    RecordNotTaken = 3,
    TooLarge = 4,
    // the contents of an image
    NotAnImage = 5,
    ContentsCount = 6,
    ContentsLine = 7,
    BodySum = 8,
    // its sections
    UnknownKind = 9,
    MissingKind = 10,
    Identity = 11,
    PressureSet = 12,
    TemperatureSet = 13,
    Trim = 15,
    Note = 16,
    // what is to be written or built
    NoRoom = 17,
    BuilderLines = 18,
    BuilderLengths = 19,
    NoSuchLevel = 20,
    // a reading
    SensorCycles = 21,
    ReferenceCycles = 22,
    Frequency = 23,
    FarFromCalibration = 24,
    SumTooLarge = 25,
    ResultTooLarge = 26,
}

impl Reason {
    pub fn number(self) -> u32
        ensures { result ≡ number_of self }
    {
        self as u32
    }

    pub fn refused<T>(self, detail: u64) -> Result<T, Refusal>
        ensures { result ≡ Err (refusal (number_of self) detail) }
    {
        Err(Refusal {
            number: self.number(),
            detail,
        })
    }

    // Of a body whose first wrong field stands at `place`.
    pub fn refused_at(self, place: usize) -> Verdict
        ensures { result ≡ refused_at (number_of self) place }
    {
        crate::refused_at(self.number(), place)
    }
}
