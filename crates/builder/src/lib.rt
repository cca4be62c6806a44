// The builder: the image of a list of contents lines and their bodies.
#![tactic(auto)]

ghost use Rattle.std.specs.Prelude.{length};
ghost use Rattle.refusals.specs.RefusalsLaws.{Begins};
ghost use Rattle.builder.specs.Build.{build_image, Builds};
ghost use Rattle.builder.specs.Lines.{lines_given};

use lines::{KindsAndLengths, Lines};
use refusals::Filled;

// The lines that are lent.
mod lines;

// The checks.
mod check;

// The image's bytes.
mod write;

// A contents line as the builder is given it.
#[derive(Clone, Copy)]
pub struct KindAndLength {
    pub kind: u32,
    pub length: usize,
}

// Checks, and writes the image at the buffer's start where nothing is refused. What lies after it in the buffer is not cleared here.
#[tactic(auto, using(crate::specs::BuildLaws::passed), unfolding(crate::specs::Build::build_image))]
fn check_and_put<L: Lines>(lines: &L, bodies: &[u8], image: &mut [u8]) -> Filled
    ensures { Begins (build_image (length image.old) (L.lines lines.now) bodies.now) result image.new }
{
    check::build_verdict(lines, bodies, image.len())?;
    write::put_image(lines, bodies, image)
}

fn build_lines<L: Lines>(lines: &L, bodies: &[u8], image: &mut [u8]) -> Filled
    ensures { Builds (L.lines lines.now) bodies.now image.old result image.new }
{
    let answer = check_and_put(lines, bodies, image);
    refusals::settled(answer, image)
}

// The builder on numbers and bytes: line i is kinds[i] with lengths[i].
pub fn build_from_numbers(
    kinds: &[u32],
    lengths: &[usize],
    bodies: &[u8],
    image: &mut [u8],
) -> Filled
    ensures { Builds (lines_given kinds.now lengths.now) bodies.now image.old result image.new }
{
    build_lines(&KindsAndLengths { kinds, lengths }, bodies, image)
}

// The builder on a lent list of lines.
pub fn build(lines: &[KindAndLength], bodies: &[u8], image: &mut [u8]) -> Filled
    ensures { Builds lines.now bodies.now image.old result image.new }
{
    build_lines(&lines, bodies, image)
}
