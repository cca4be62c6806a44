// The layout of an image judged: refusals 5 to 8, each check finished for the whole image before the next.
#![tactic(auto)]

ghost use Rattle.std.specs.Prelude.{◌≡◌, length, Ok};
ghost use Rattle.image.specs.Contents.{contents_verdict};
ghost use Rattle.image.specs.Layout.{all_sums, layout_verdict};

use limits::{HEAD_SIZE, LINE_SIZE};
use numbers::slices;
use refusals::{Reason, Verdict};

// Refusal 8. The contents are good, so every line is in bounds, and every body right after the one before: no bounds check.
#[tactic(auto, using(crate::specs::SumsLaws::loop_laws))]
fn sums(image: &[u8]) -> Verdict
    requires { contents_verdict (length image.now) image.now ≡ Ok tt }
    ensures { result ≡ all_sums image.now }
{
    let count = contents::line_count(image);
    let mut offset = HEAD_SIZE + LINE_SIZE * count;
    for i in 0..count {
        let place = HEAD_SIZE + LINE_SIZE * i;
        let line = contents::line_in(&image[place..place + LINE_SIZE]);
        // `as`, for with `usize::from` the search did not find that the body is within the image
        let end = offset + line.length as usize;
        let body = &image[offset..end];
        if slices::byte_sum(body) != line.sum {
            return Reason::BodySum.refused(i as u64);
        }
        offset = end;
    }
    Ok(())
}

#[tactic(auto, using(crate::specs::SumsLaws::contents_decide, crate::specs::SumsLaws::contents_good, crate::specs::SumsLaws::sums_decide))]
pub fn layout(image: &[u8]) -> Verdict
    ensures { result ≡ layout_verdict image.now }
{
    contents::contents_verdict(image, image.len())?;
    sums(image)
}
