// The load of a text: read, then judged.
ghost use Rattle.std.specs.Prelude.{length};
ghost use Rattle.refusals.specs.Refusals.{Fills};
ghost use Rattle.panel.specs.Load.{Keeps, load_text};

use crate::verdicts::verdict;
use refusals::Filled;

// The image at the buffer's start, `size` bytes, judged: the buffer stays as it is, or is cleared where the image is refused.
pub fn keep_accepted(level: u32, image: &mut [u8], size: usize) -> Filled
    ensures { Keeps level size image.old result image.new }
{
    let judged = verdict(numbers::slices::part(image, 0, size), level);
    match judged {
        Ok(()) => Ok(size),
        Err(refusal) => refusals::settled(Err(refusal), image),
    }
}

// What a panel's firmware calls: the text is read into the lent image and judged. Where the text or the image is refused, the
// image is all zeros, so that nothing of an earlier load stays behind.
pub fn load(text: &[u8], level: u32, image: &mut [u8]) -> Filled
    ensures { Fills (load_text level (length image.old) text.now) image.old result image.new }
{
    let size = hexread::read(text, image)?;
    keep_accepted(level, image, size)
}
