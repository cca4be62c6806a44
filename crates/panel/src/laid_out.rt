// An image whose layout is good: its contents lines and bodies are all there, and no bounds check is left.
ghost use Rattle.std.specs.Prelude.{◌≡◌, Ok};
ghost use Rattle.image.specs.Layout.{layout_verdict};

use contents::ContentsLine;
use limits::{HEAD_SIZE, LINE_SIZE};
use refusals::Refusal;

#[derive(Clone, Copy)]
pub struct LaidOut<'a> {
    pub image: &'a [u8],
    ghost good: { layout_verdict image.now ≡ Ok tt },
}

impl<'a> LaidOut<'a> {
    ghost use Rattle.std.specs.Prelude.{◌+◌, ◌<◌, Err, MatchResult};
    ghost use Rattle.image.specs.Contents.{line_count};
    ghost use Rattle.image.specs.Layout.{body_at};
    ghost use Rattle.image.specs.Sections.{sections};
    ghost use Rattle.image.specs.Find.{body_of, is_there};
    ghost use Rattle.contents.specs.Lines.{line_at};
    ghost use Rattle.panel.specs.GoodLayoutLaws.{FirstKindsPresent};

    // Refusals 5 to 8.
    pub(crate) fn judged(image: &'a [u8]) -> Result<LaidOut<'a>, Refusal>
        ensures { MatchResult result
            (λ laid. (laid.image.now ≡ image.now) × (layout_verdict image.now ≡ Ok tt))
            (λ refusal. layout_verdict image.now ≡ Err refusal) }
    {
        // re-sliced: passing the fat pointer on as it came causes a store-forwarding stall
        layout::layout(&image[..])?;
        Ok(LaidOut { image })
    }

    pub(crate) fn line_count(self) -> usize
        ensures { result ≡ line_count self.entry.image.now }
    {
        contents::line_count(self.image)
    }

    pub(crate) fn line(self, i: usize) -> ContentsLine
        requires { i < line_count self.image.now }
        ensures { result ≡ line_at self.entry.image.now i }
    {
        let place = HEAD_SIZE + LINE_SIZE * i;
        contents::line_in(&self.image[place..place + LINE_SIZE])
    }

    #[tactic(auto, using(crate::specs::GoodLayoutLaws::body_room))]
    pub(crate) fn body(self, i: usize) -> &'a [u8]
        requires { i < line_count self.image.now }
        ensures { result.now ≡ body_at self.entry.image.now i }
    {
        let line = self.line(i);
        let offset = usize::from(line.offset);
        let length = usize::from(line.length);
        &self.image[offset..offset + length]
    }

    // Whether kind i + 1 is there, where the kinds below it are: kinds rise, so that it can stand at line i only.
    #[tactic(auto, using(crate::specs::GoodLayoutLaws::no_next, crate::specs::GoodLayoutLaws::next_here))]
    pub(crate) fn has_next_kind(self, i: usize) -> bool
        requires { FirstKindsPresent self.image.now i }
        ensures { result ≡ is_there (body_of (i + 1) (sections self.entry.image.now)) }
    {
        i < self.line_count() && i + 1 == usize::from(self.line(i).kind)
    }
}
