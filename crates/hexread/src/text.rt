// The whole text, line by line.
ghost use Rattle.std.specs.Prelude.{length};
ghost use Rattle.refusals.specs.RefusalsLaws.{Begins};
ghost use Rattle.hextext.specs.Text.{read_text};

use crate::digits::{DigitTable, NO_DIGIT, put_digits};
use crate::line::{Step, first_line};
use hexline::room_in;
use refusals::{Filled, Reason, Refusal};

// Reads the text into the image from its start. What stands after the result is anything.
pub fn read_lines(text: &[u8], image: &mut [u8]) -> Filled
    ensures { Begins (read_text (length image.old) text.now) result image.new }
{
    // filled where it is, and lent: a table that is moved, of 512 bytes, may be on the stack more than once
    let mut values = [NO_DIGIT as u16; 256];
    put_digits(&mut values);
    let digits = DigitTable { values: &values };
    let room = room_in(image.len());
    let mut start: usize = 0;
    let mut size: usize = 0;
    let mut line: u64 = 1;
    // what a line is found to be says how far the next one is
    while start < text.len() {
        let step = first_line(&digits, &text[start..], image, size, room).map_err(
            |number| Refusal {
                number,
                detail: line,
            },
        )?;
        match step {
            Step::More(written, next) => {
                size += written;
                start += next;
                line += 1;
            }
            Step::Last(next) => {
                if start + next == text.len() {
                    return Ok(size);
                }
                return Reason::NotARecord.refused(line + 1);
            }
        }
    }
    Reason::NotARecord.refused(line)
}
