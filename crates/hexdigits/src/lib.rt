// Characters as hexadecimal digits, and pairs of them as bytes: what lines of a HEX text are made of.
#![tactic(auto)]

// A digit's value, and the sum of the bytes that digits spell.
mod digits;

// The bytes written into a buffer.
mod bytes;

pub use bytes::put_bytes;
pub use digits::{digit, digits_sum};
