// Numbers among bytes, and parts of a slice. Every function answers for every input.
#![tactic(auto)]

pub mod fields;
pub mod slices;
