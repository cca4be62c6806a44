// The bodies of kinds 1, 4 and 129: is one right, and what it says. Every function answers for every slice.
#![tactic(auto)]

mod identities;
// Kind 129 says nothing that is read: it has a verdict alone.
mod notes;
mod trims;

pub use identities::{identity_verdict, read_identity};
pub use notes::note_verdict;
pub use trims::{read_trim, trim_verdict};

// Kind 1. Temperatures are whole °C, pressures whole psi.
#[derive(Clone, Copy)]
pub struct Identity {
    pub serial: u32,
    pub year: u16,
    pub month: u8,
    pub day: u8,
    pub tmin: i32,
    pub tmax: i32,
    pub pmin: i32,
    pub pmax: i32,
}

// Kind 4. The zero is in 1/65,536 of the unit.
#[derive(Clone, Copy)]
pub struct Trim {
    pub unit: u8,
    pub span: u32,
    pub zero: i64,
}
