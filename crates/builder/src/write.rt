// The image's bytes written into a buffer: the first two, the contents lines, the bodies.
ghost use Rattle.std.specs.Prelude.{◌≡◌, ◌++◌, ◌+◌, ◌%◌, ◌≤◌, length, take, drop};
ghost use Rattle.laws.specs.Sums.{total};
ghost use Rattle.refusals.specs.Refusals.{result as the_result};
ghost use Rattle.refusals.specs.RefusalsLaws.{Begins};
ghost use Rattle.image.specs.Sections.{contents_line, image_of};
ghost use Rattle.builder.specs.Build.{sections_of};
ghost use Rattle.builder.specs.BuildLaws.{AcceptedLines};
ghost use Rattle.builder.specs.WriteLaws.{ContentsPut};

use crate::lines::Lines;
use limits::{FIRST_BYTE, HEAD_SIZE, LINE_SIZE};
use numbers::slices;
use refusals::Filled;

// Bytes from `place` on. Each by itself: a copy of a length that the compiler doesn't know is a call of `memmove`.
#[tactic(auto, using(crate::specs::WriteLaws::putting_first, crate::specs::WriteLaws::putting_more, crate::specs::WriteLaws::putting_end))]
fn put(image: &mut [u8], place: usize, bytes: &[u8])
    requires { place + length bytes.now ≤ length image.old }
    ensures { take (place + length bytes.now) image.new ≡ take place image.old ++ bytes.now }
{
    for (i, byte) in bytes.iter().enumerate() {
        image[place + i] = *byte;
    }
}

// A contents line from `place` on.
#[tactic(auto, using(crate::specs::WriteLaws::line_spelled))]
fn put_line(image: &mut [u8], place: usize, kind: u8, offset: u16, size: u16, sum: u16)
    requires { place + 8 ≤ length image.old }
    ensures { take (place + 8) image.new ≡ take place image.old ++ contents_line kind offset size sum }
{
    let [offset_low, offset_high] = offset.to_le_bytes();
    let [size_low, size_high] = size.to_le_bytes();
    let [sum_low, sum_high] = sum.to_le_bytes();
    let line = [
        kind,
        0,
        offset_low,
        offset_high,
        size_low,
        size_high,
        sum_low,
        sum_high,
    ];
    put(image, place, &line);
}

// The sum of the body that begins at `start`.
fn body_sum(bodies: &[u8], start: usize, size: usize) -> u16
    requires { start + size ≤ length bodies.now }
    ensures { result ≡ total (take size (drop start bodies.now)) % 65536 }
{
    let end = start + size;
    slices::byte_sum(&bodies[start..end])
}

// The contents lines, after the image's first two bytes.
fn put_contents<L: Lines>(lines: &L, bodies: &[u8], image: &mut [u8])
    requires { AcceptedLines (length image.old) (L.lines lines.now) bodies.now }
    ensures { ContentsPut (L.lines lines.now) bodies.now image.old image.new }
{
    let count = lines.count();
    let first = HEAD_SIZE + LINE_SIZE * count;
    let mut start: usize = 0;
    for i in 0..count {
        let line = lines.line(i);
        let sum = body_sum(bodies, start, line.length);
        put_line(
            image,
            HEAD_SIZE + LINE_SIZE * i,
            line.kind as u8,
            (first + start) as u16,
            line.length as u16,
            sum,
        );
        start += line.length;
    }
}

// The image, from the buffer's start.
#[tactic(auto, using(crate::specs::WriteLaws::image_written))]
pub fn put_image<L: Lines>(lines: &L, bodies: &[u8], image: &mut [u8]) -> Filled
    requires { AcceptedLines (length image.old) (L.lines lines.now) bodies.now }
    ensures { Begins (the_result (image_of (sections_of (L.lines lines.now) bodies.now))) result image.new }
{
    let count = lines.count();
    put(image, 0, &[FIRST_BYTE, count as u8]);
    put_contents(lines, bodies, image);
    let first = HEAD_SIZE + LINE_SIZE * count;
    put(image, first, bodies);
    Ok(first + bodies.len())
}
