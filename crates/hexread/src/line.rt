// The first line of a text, found by its record's count.
ghost use Rattle.std.specs.Prelude.{◌≡◌, ◌≤◌, min, length};
ghost use Rattle.limits.specs.Limits.{largest_image};
ghost use Rattle.hexread.specs.LineLaws.{FirstLineRead};

use crate::digits::DigitTable;
use crate::record::take_record;
use hexline::next_line;
use hextext::{NOT_A_RECORD, Record};

// What the first line of a text is: a record of so many data bytes, or the end record, each with the next line's start.
#[derive(Clone, Copy)]
pub enum Step {
    More(usize, usize),
    Last(usize),
}

// The text's first line, its record's data in the image at `at`; or the number that refuses it.
pub fn first_line(
    digits: &DigitTable,
    text: &[u8],
    image: &mut [u8],
    at: usize,
    room: usize,
) -> Result<Step, u32>
    requires { (at ≤ room) × (room ≡ min largest_image (length image.old)) }
    ensures { FirstLineRead result text.now image.old image.new room at }
{
    if text.len() < 12 {
        return Err(NOT_A_RECORD);
    }
    if text[0] != b':' {
        return Err(NOT_A_RECORD);
    }
    let count = digits.pair(text, 1);
    if 256 <= count {
        return Err(NOT_A_RECORD);
    }
    let end = 11 + count * 2;
    let Some(next) = next_line(text, end) else {
        return Err(NOT_A_RECORD);
    };
    let record = take_record(digits, &text[..end], count, image, at, room)?;
    match record {
        Record::Data(written) => Ok(Step::More(written, next)),
        Record::End => Ok(Step::Last(next)),
    }
}
