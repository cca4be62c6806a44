// The HEX text of an image, written into a lent buffer.
#![tactic(auto)]

ghost use Rattle.std.specs.Prelude.{length};
ghost use Rattle.refusals.specs.Refusals.{Fills};
ghost use Rattle.hextext.specs.Written.{write_image};

use refusals::Filled;

// Bytes spelled as hexadecimal digits.
mod digits;

// One record.
mod record;

// The records of an image in order.
mod records;

// Writes the image's text, with zeros after it; where it is refused the buffer is all zeros.
pub fn write(image: &[u8], text: &mut [u8]) -> Filled
    ensures { Fills (write_image (length text.old) image.now) text.old result text.new }
{
    let answer = records::write_records(image, text);
    refusals::settled(answer, text)
}
