// A HEX text read into a lent image.
#![tactic(auto)]

ghost use Rattle.std.specs.Prelude.{length};
ghost use Rattle.refusals.specs.Refusals.{Fills};
ghost use Rattle.hextext.specs.Text.{read_text};

use refusals::Filled;

// Characters as hexadecimal digits, and the pairs that spell bytes.
mod digits;

// The record of a line.
mod record;

// The first line of a text, found by its record's count.
mod line;

// The whole text, line by line.
mod text;

// Reads the text into the image, with zeros after it; where the text is refused the image is all zeros.
pub fn read(text: &[u8], image: &mut [u8]) -> Filled
    ensures { Fills (read_text (length image.old) text.now) image.old result image.new }
{
    let answer = text::read_lines(text, image);
    refusals::settled(answer, image)
}
