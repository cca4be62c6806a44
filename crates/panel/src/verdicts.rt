// The verdict on an image: 20, then 5 to 13, 15, 16, each finished for the whole image before the next.
ghost use Rattle.std.specs.Prelude.{◌≡◌, ◌+◌, ◌<◌};
ghost use Rattle.image.specs.Contents.{line_count};
ghost use Rattle.image.specs.Sections.{sections};
ghost use Rattle.panel.specs.GoodLayoutLaws.{FirstKindsPresent};
ghost use Rattle.panel.specs.BodiesLaws.{line_verdict};
ghost use Rattle.panel.specs.Verdict.{unknown_verdict, present_verdict, missing_verdict, kind_verdict, bodies_verdict, sections_verdict, verdict_of};
ghost use Rattle.panel.specs.Kinds.{level_number, kind_number};

use crate::laid_out::LaidOut;
use crate::levels::{Kind, Level};
use refusals::{Reason, Verdict};

// The body of a kind, wherever it stands.
#[tactic(auto, unfolding(crate::specs::Verdict::kind_verdict))]
fn kind_verdict(kind: Kind, body: &[u8]) -> Verdict
    ensures { result ≡ kind_verdict (kind_number kind) body.now }
{
    match kind {
        Kind::Identity => bodies::identity_verdict(body),
        Kind::PressureSet => sets::set_verdict(body, Reason::PressureSet.number()),
        Kind::TemperatureSet => sets::set_verdict(body, Reason::TemperatureSet.number()),
        Kind::Trim => bodies::trim_verdict(body),
        Kind::Note => bodies::note_verdict(body),
    }
}

impl LaidOut<'_> {
    // Refusal 9.
    fn unknown_verdict(self, level: Level) -> Verdict
        ensures { result ≡ unknown_verdict (level_number level) (sections self.entry.image.now) }
    {
        for i in 0..self.line_count() {
            let kind = u32::from(self.line(i).kind);
            if !level.may_pass(kind) {
                return Reason::UnknownKind.refused(u64::from(kind));
            }
        }
        Ok(())
    }

    // Refusal 10 of kind i + 1, where the kinds below it are there.
    #[tactic(auto, using(crate::specs::GoodLayoutLaws::few_lines))]
    fn present_verdict(self, i: usize) -> Verdict
        requires { FirstKindsPresent self.image.now i }
        ensures { result ≡ present_verdict (i + 1) (sections self.entry.image.now) }
    {
        if self.has_next_kind(i) {
            return Ok(());
        }
        Reason::MissingKind.refused(i as u64 + 1)
    }

    // Refusal 10.
    #[tactic(auto, using(crate::specs::GoodLayoutLaws::first_kinds), unfolding(crate::specs::Verdict::missing_verdict))]
    fn missing_verdict(self) -> Verdict
        ensures { result ≡ missing_verdict (sections self.entry.image.now) }
    {
        self.present_verdict(0)?;
        self.present_verdict(1)?;
        self.present_verdict(2)
    }

    // The body of a line, if the level knows its kind.
    fn line_verdict(self, level: Level, i: usize) -> Verdict
        requires { i < line_count self.image.now }
        ensures { result ≡ line_verdict (level_number level) self.entry.image.now i }
    {
        match level.known(u32::from(self.line(i).kind)) {
            Some(kind) => kind_verdict(kind, self.body(i)),
            None => Ok(()),
        }
    }

    // Refusals 11, 12, 13, 15, 16, in one walk over the contents lines: their kinds rise as these numbers do.
    fn bodies_verdict(self, level: Level) -> Verdict
        ensures { result ≡ bodies_verdict (level_number level) (sections self.entry.image.now) }
    {
        for line in 0..self.line_count() {
            self.line_verdict(level, line)?;
        }
        Ok(())
    }

    // All that the layout leaves open.
    #[tactic(auto, unfolding(crate::specs::Verdict::sections_verdict))]
    fn sections_verdict(self, level: Level) -> Verdict
        ensures { result ≡ sections_verdict (level_number level) (sections self.entry.image.now) }
    {
        self.unknown_verdict(level)?;
        self.missing_verdict()?;
        self.bodies_verdict(level)
    }
}

// What a panel of this level says of an image: accepted, or its first refusal.
#[tactic(auto, unfolding(crate::specs::Verdict::verdict_of))]
pub fn verdict(image: &[u8], level: u32) -> Verdict
    ensures { result ≡ verdict_of level image.now }
{
    let known = Level::of(level)?;
    let laid = LaidOut::judged(image)?;
    laid.sections_verdict(known)
}
