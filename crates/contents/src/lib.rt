// The contents of an image: what a line says, and refusals 5 to 7; every function answers for every slice.
#![tactic(auto)]

ghost use Rattle.std.specs.Prelude.{◌≡◌};
ghost use Rattle.image.specs.Contents.{line_count, contents_verdict};
ghost use Rattle.contents.specs.Lines.{line_in, line_at};

use limits::{HEAD_SIZE, LINE_SIZE};
use numbers::fields::Number;
use numbers::slices;
use refusals::Verdict;

// The three checks.
mod checks;

// What a contents line says: the kind, a byte that is to be 0, and where the body starts, how long it is, the sum of its bytes.
#[derive(Clone, Copy)]
pub struct ContentsLine {
    pub kind: u8,
    pub zero: u8,
    pub offset: u16,
    pub length: u16,
    pub sum: u16,
}

pub fn line_count(image: &[u8]) -> usize
    ensures { result ≡ line_count image.now }
{
    usize::from(u8::at(image, 1))
}

// The line that these bytes begin with; bytes past the end are 0. Of a slice whose length is known to be 8 the compiler drops the bounds checks.
pub fn line_in(bytes: &[u8]) -> ContentsLine
    ensures { result ≡ line_in bytes.now }
{
    ContentsLine {
        kind: u8::at(bytes, 0),
        zero: u8::at(bytes, 1),
        offset: u16::at(bytes, 2),
        length: u16::at(bytes, 4),
        sum: u16::at(bytes, 6),
    }
}

// Bytes past the end are 0. A place that would wrap is the highest instead, which is past the end of every slice.
#[tactic(auto, using(crate::specs::LinesLaws::line_of_part))]
pub fn line_at(image: &[u8], line: usize) -> ContentsLine
    ensures { result ≡ line_at image.now line }
{
    let place = LINE_SIZE.saturating_mul(line).saturating_add(HEAD_SIZE);
    let part = slices::part(image, place, LINE_SIZE);
    // all of it is there: one bounds check for all fields
    if part.len() == LINE_SIZE {
        return line_in(&part[..LINE_SIZE]);
    }
    line_in(part)
}

// Refusals 5 to 7 of an image of `size` bytes, by its contents alone: the bodies need not be there.
#[tactic(auto, unfolding(image::specs::Contents::contents_verdict))]
pub fn contents_verdict(contents: &[u8], size: usize) -> Verdict
    ensures { result ≡ contents_verdict size contents.now }
{
    checks::start_verdict(contents, size)?;
    checks::count_verdict(contents, size)?;
    checks::lines_verdict(contents, size)
}
