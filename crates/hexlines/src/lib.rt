// One line of a HEX text, with its line end, taken into the image that its text is read into.
#![tactic(auto)]

ghost use Rattle.hexlines.specs.Taken.{TakesLine};

use any_line::take_any;
use due::take_due;
use hextext::{LineRecord, Record};
use letters::is_end_record;

// Characters compared.
mod letters;

// A data record at the address that is due.
mod due;

// Any line.
mod any_line;

// Characters of the end record, with its line end.
const END_RECORD: usize = 12;

// Takes one line of a text, with its line end, with `at` bytes of image before it. Where it is refused, the image is all zeros.
// The answer of `take_any` has a local of its own: shared with the other one it would go by way of memory on every line.
pub fn take_line(line: &[u8], at: usize, image: &mut [u8]) -> LineRecord
    ensures { TakesLine line.now at image.old result image.new }
{
    if line.len() <= END_RECORD {
        if is_end_record(line) {
            return Ok(Record::End);
        }
        let taken = take_any(line, at, image);
        return taken;
    }
    if let Some(count) = take_due(line, at, image) {
        return Ok(Record::Data(count));
    }
    let taken = take_any(line, at, image);
    taken
}
