// From counts to a reading.
#![tactic(auto)]

use refusals::Refusal;

// What must hold on the way.
mod checks;

// Frequencies, and X.
mod frequency;

// X within its limit.
mod prescaled;

// The sum of a set.
mod polynomial;

// Mark and trim.
mod shown;

// The whole way.
mod measure;

pub use measure::measured;

// The answer for C.
mod for_c;

pub use for_c::AnswerForC;

// Cycles that a gauge's sensor ran.
#[repr(C)]
#[derive(Clone, Copy)]
pub struct SensorCycles(pub u64);

// Cycles of the 7.2 MHz reference that were counted while the sensor ran its own.
#[repr(C)]
#[derive(Clone, Copy)]
pub struct ReferenceCycles(pub u64);

// The counts of one sensor. They have types of their own, since a frequency is quietly wrong where they trade places.
#[repr(C)]
#[derive(Clone, Copy)]
pub struct Channel {
    pub sensor: SensorCycles,
    pub reference: ReferenceCycles,
}

// The counts of both sensors.
#[repr(C)]
#[derive(Clone, Copy)]
pub struct Counts {
    pub pressure: Channel,
    pub temperature: Channel,
}

// Pressure in 1/65,536 of the unit (1 psi, 2 bar, 3 kPa), temperature in 1/65,536 °C.
#[derive(Clone, Copy)]
pub struct Reading {
    pub pressure: i64,
    pub temperature: i64,
    pub unit: u8,
    pub mark: u8,
}

// What a panel is told: a reading, or a refusal, which holds no pressure.
pub type Answer = Result<Reading, Refusal>;
