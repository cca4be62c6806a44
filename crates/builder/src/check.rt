// The builder's checks: refusals 18, 19 and 17, in that order.
ghost use Rattle.std.specs.Prelude.{◌≡◌, ◌+◌, ◌≤◌, eqb, length};
ghost use Rattle.limits.specs.Limits.{most_lines};
ghost use Rattle.image.specs.Contents.{line_place};
ghost use Rattle.builder.specs.Build.{kinds_rise, lengths_total, build_verdict};
ghost use Rattle.builder.specs.BuildLaws.{lines_right, lengths_right};

use crate::lines::Lines;
use limits::{HEAD_SIZE, HIGHEST_KIND, LARGEST_IMAGE, LINE_SIZE, MOST_LINES};
use refusals::{Reason, Verdict};

// Whether the kinds strictly rise within 1 to 255.
#[tactic(auto, using(crate::specs::CheckLaws::rising_first, crate::specs::CheckLaws::rising_more, crate::specs::CheckLaws::rising_end))]
fn kinds_rise<L: Lines>(lines: &L) -> bool
    ensures { result ≡ kinds_rise 0 (L.lines lines.now) }
{
    let mut previous: u32 = 0;
    for i in 0..lines.count() {
        let kind = lines.line(i).kind;
        if kind <= previous {
            return false;
        }
        previous = kind;
    }
    // the last is the highest
    previous <= HIGHEST_KIND
}

// Whether 18 is not given.
fn lines_right<L: Lines>(lines: &L) -> bool
    ensures { result ≡ lines_right (L.lines lines.now) }
{
    (1..=MOST_LINES).contains(&lines.count()) && kinds_rise(lines)
}

// Whether the lengths add up to so many bytes. Their sum could wrap, so each is taken off what is left.
#[tactic(auto, using(crate::specs::CheckLaws::adding_first, crate::specs::CheckLaws::adding_end))]
fn lengths_add_up<L: Lines>(lines: &L, bytes: usize) -> bool
    ensures { result ≡ eqb (lengths_total (L.lines lines.now)) bytes }
{
    let mut left = bytes;
    for i in 0..lines.count() {
        let length = lines.line(i).length;
        if left < length {
            return false;
        }
        left -= length;
    }
    left == 0
}

fn image_length(count: usize, bodies: &[u8]) -> usize
    requires { count ≤ most_lines }
    ensures { result ≡ line_place count + length bodies.now }
{
    HEAD_SIZE + LINE_SIZE * count + bodies.len()
}

// Whether 19 is not given.
fn lengths_right<L: Lines>(lines: &L, bodies: &[u8]) -> bool
    requires { length (L.lines lines.now) ≤ most_lines }
    ensures { result ≡ lengths_right (L.lines lines.now) bodies.now }
{
    lengths_add_up(lines, bodies.len()) && image_length(lines.count(), bodies) <= LARGEST_IMAGE
}

// For a buffer of `size` bytes.
#[tactic(auto, using(crate::specs::CheckLaws::lines_few), unfolding(crate::specs::Build::build_verdict))]
pub fn build_verdict<L: Lines>(lines: &L, bodies: &[u8], size: usize) -> Verdict
    ensures { result ≡ build_verdict size (L.lines lines.now) bodies.now }
{
    if !lines_right(lines) {
        return Reason::BuilderLines.refused(0);
    }
    if !lengths_right(lines, bodies) {
        return Reason::BuilderLengths.refused(0);
    }
    if size < image_length(lines.count(), bodies) {
        return Reason::NoRoom.refused(0);
    }
    Ok(())
}
