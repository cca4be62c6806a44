// The records of an image in order, and how long their text is.
ghost use Rattle.std.specs.Prelude.{◌≡◌, ◌+◌, ◌*◌, ◌<◌, ◌≤◌, length, take};
ghost use Rattle.limits.specs.Limits.{largest_image};
ghost use Rattle.refusals.specs.RefusalsLaws.{Begins};
ghost use Rattle.hextext.specs.Written.{text_of, text_length, write_image};

use crate::digits::DigitTable;
use crate::record::put_record;
use limits::LARGEST_IMAGE;
use numbers::slices::part;
use refusals::{Filled, Reason};

// data bytes of a full record
const FULL_RECORD: usize = 16;

// characters of a record without data, as the end record is, and of a full one
const EMPTY_RECORD_LENGTH: usize = 12;

const FULL_RECORD_LENGTH: usize = EMPTY_RECORD_LENGTH + FULL_RECORD * 2;

// How many characters the text of `count` bytes has.
fn text_length(count: usize) -> usize
    requires { count ≤ largest_image }
    ensures { result ≡ text_length count }
{
    if count % FULL_RECORD == 0 {
        count / FULL_RECORD * FULL_RECORD_LENGTH + EMPTY_RECORD_LENGTH
    } else {
        count / FULL_RECORD * FULL_RECORD_LENGTH
            + (EMPTY_RECORD_LENGTH + count % FULL_RECORD * 2)
            + EMPTY_RECORD_LENGTH
    }
}

// Writes the text of an image that has room for it.
fn put_records(image: &[u8], text: &mut [u8])
    requires { (length image.now ≤ largest_image) × (text_length (length image.now) ≤ length text.old) }
    ensures { take (text_length (length image.now)) text.new ≡ text_of image.now }
{
    let digits = DigitTable::new();
    let mut at: usize = 0;
    let mut start: usize = 0;
    // a record at a time: over `chunks` the proof did not close
    while start < image.len() {
        at = put_record(&digits, text, at, start, 0, part(image, start, FULL_RECORD));
        start += FULL_RECORD;
    }
    put_record(&digits, text, at, 0, 1, &[]);
}

// Writes the image's text from the buffer's start. What stands after the result is anything.
pub fn write_records(image: &[u8], text: &mut [u8]) -> Filled
    ensures { Begins (write_image (length text.old) image.now) result text.new }
{
    let size = image.len();
    if LARGEST_IMAGE < size {
        return Reason::TooLarge.refused(0);
    }
    let needed = text_length(size);
    if text.len() < needed {
        return Reason::NoRoom.refused(0);
    }
    put_records(image, text);
    Ok(needed)
}
