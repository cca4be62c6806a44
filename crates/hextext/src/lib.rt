// No code: what a HEX text is stands in specs/. This names what a line of one is.
#![tactic(auto)]

use refusals::Reason;

// The numbers that refuse a line; with its place in the text each makes a refusal.
pub const NOT_A_RECORD: u32 = Reason::NotARecord as u32;

pub const CHECKSUM: u32 = Reason::Checksum as u32;

pub const RECORD_NOT_TAKEN: u32 = Reason::RecordNotTaken as u32;

pub const TOO_LARGE: u32 = Reason::TooLarge as u32;

// The fields of a record that stand before its data. Its kind is document 01's type: 0 for data, 1 for the end.
#[derive(Clone, Copy)]
pub struct Header {
    pub count: usize,
    pub address: usize,
    pub kind: usize,
}

// A line by itself: a record's header, or the number that refuses it.
pub type TextLine = Result<Header, u32>;

// A record in its place in a text.
#[derive(Clone, Copy)]
pub enum Record {
    // type 00, with so many data bytes
    Data(usize),
    // type 01
    End,
}

// A line in its place in a text: a record, or the number that refuses it.
pub type LineRecord = Result<Record, u32>;
