// One line of a HEX text as a record, by itself: any characters are judged. What a text is read by stands on this.
#![tactic(auto)]

// A line judged as a record.
mod judge;

// A record taken into an image.
mod take;

// Where lines end.
mod ends;

pub use ends::{bare_length, line_length, next_line};
pub use judge::{data_byte, judge_header, judge_in_place, judge_line, room_in};
pub use take::take_record;
