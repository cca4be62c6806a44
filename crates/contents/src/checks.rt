// The three checks of contents, refusals 5 to 7, each by itself.
ghost use Rattle.std.specs.Prelude.{◌≡◌, ◌<◌};
ghost use Rattle.image.specs.Contents.{start_verdict, count_verdict, all_lines};
ghost use Rattle.contents.specs.Lines.{line_at, fits_after};

use crate::{ContentsLine, line_at, line_count, line_in};
use limits::{FIRST_BYTE, HEAD_SIZE, LARGEST_IMAGE, LINE_SIZE, MOST_LINES};
use numbers::fields::Number;
use refusals::{Reason, Verdict};

// Refusal 5.
#[tactic(auto, unfolding(image::specs::Contents::start_verdict))]
pub fn start_verdict(contents: &[u8], size: usize) -> Verdict
    ensures { result ≡ start_verdict size contents.now }
{
    if !(HEAD_SIZE..=LARGEST_IMAGE).contains(&size) || u8::at(contents, 0) != FIRST_BYTE {
        return Reason::NotAnImage.refused(0);
    }
    Ok(())
}

// Refusal 6.
#[tactic(auto, unfolding(image::specs::Contents::count_verdict))]
pub fn count_verdict(contents: &[u8], size: usize) -> Verdict
    ensures { result ≡ count_verdict size contents.now }
{
    let count = line_count(contents);
    if !(1..=MOST_LINES).contains(&count) || size < HEAD_SIZE + LINE_SIZE * count {
        return Reason::ContentsCount.refused(0);
    }
    Ok(())
}

// The bounds check is for all `count` lines at once: it is loop-invariant, and the compiler hoists it. `line_at`, which has a bounds check
// for each line, has callers in other crates, so that the compiler does not inline it.
#[tactic(auto, using(crate::specs::LinesLaws::whole_line))]
fn line_of(contents: &[u8], line: usize, count: usize) -> ContentsLine
    requires { (line < count) × (count < 256) }
    ensures { result ≡ line_at contents.now line }
{
    if contents.len() < HEAD_SIZE + LINE_SIZE * count {
        return line_at(contents, line);
    }
    let place = HEAD_SIZE + LINE_SIZE * line;
    line_in(&contents[place..place + LINE_SIZE])
}

fn line_right(line: ContentsLine, previous: u8, offset: usize) -> bool
    ensures { result ≡ fits_after line previous offset }
{
    previous < line.kind && line.zero == 0 && usize::from(line.offset) == offset
}

// Refusal 7.
#[tactic(auto, using(crate::specs::ChecksLaws::loop_laws))]
pub fn lines_verdict(contents: &[u8], size: usize) -> Verdict
    ensures { result ≡ all_lines size contents.now }
{
    let count = line_count(contents);
    let mut previous: u8 = 0;
    let mut offset = HEAD_SIZE + LINE_SIZE * count;
    for i in 0..count {
        let line = line_of(contents, i, count);
        if !line_right(line, previous, offset) {
            return Reason::ContentsLine.refused(i as u64);
        }
        previous = line.kind;
        offset += usize::from(line.length);
    }
    if offset != size {
        return Reason::ContentsLine.refused(count as u64);
    }
    Ok(())
}
