// Kinds 2 and 3, the pressure set and the temperature set: is one right, and what it says. Every function answers for every slice.
#![tactic(auto)]

mod coefficients;
mod grids;
mod sets;

pub use grids::read_grid;
pub use sets::{read_prescales, set_verdict};

// How a set prescales one channel's frequency.
#[derive(Clone, Copy)]
pub struct Prescale {
    pub order: u8,
    pub multiplier: u32,
    pub offset: u64,
}

// How a set prescales both frequencies: all that it says but its coefficients.
#[derive(Clone, Copy)]
pub struct Prescales {
    pub pressure: Prescale,
    pub temperature: Prescale,
}
