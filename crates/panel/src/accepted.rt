// An image that a panel accepts: its first three lines have kinds 1, 2, 3, so that their bodies are read with no search.
ghost use Rattle.std.specs.Prelude.{◌≡◌, Ok};
ghost use Rattle.image.specs.Sections.{sections};
ghost use Rattle.panel.specs.Verdict.{missing_verdict};

use crate::laid_out::LaidOut;
use crate::verdicts::verdict;
use bodies::{Identity, Trim};
use refusals::Refusal;

const FIRST_KINDS: usize = 3;

#[derive(Clone, Copy)]
pub struct Accepted<'a> {
    pub laid: LaidOut<'a>,
    ghost none_missing: { missing_verdict (sections laid.image.now) ≡ Ok tt },
}

impl<'a> Accepted<'a> {
    ghost use Rattle.std.specs.Prelude.{◌<◌, Err, MatchOption, MatchResult};
    ghost use Rattle.image.specs.Find.{body_of};
    ghost use Rattle.bodies.specs.Identity.{identity_of};
    ghost use Rattle.panel.specs.Verdict.{verdict_of};
    ghost use Rattle.panel.specs.Reading.{body_in, trimming_of};
    ghost use Rattle.panel.specs.GoodLayoutLaws.{IsLineOf, HasNoLine};

    // The verdict's refusals.
    #[tactic(auto, using(crate::specs::GoodLayoutLaws::layout_good, crate::specs::GoodLayoutLaws::none_missing))]
    pub(crate) fn judged(image: &'a [u8], level: u32) -> Result<Accepted<'a>, Refusal>
        ensures { MatchResult result
            (λ accepted. (accepted.laid.image.now ≡ image.now) × (verdict_of level image.now ≡ Ok tt))
            (λ refusal. verdict_of level image.now ≡ Err refusal) }
    {
        verdict(image, level)?;
        Ok(Accepted {
            laid: LaidOut { image },
        })
    }

    #[tactic(auto, using(crate::specs::GoodLayoutLaws::three_lines, crate::specs::ReadingLaws::first_body))]
    pub(crate) fn identity(self) -> Identity
        ensures { result ≡ identity_of (body_in 1 (sections self.entry.laid.image.now)) }
    {
        bodies::read_identity(self.laid.body(0))
    }

    #[tactic(auto, using(crate::specs::GoodLayoutLaws::three_lines, crate::specs::ReadingLaws::second_body))]
    pub(crate) fn pressure_set(self) -> &'a [u8]
        ensures { result.now ≡ body_in 2 (sections self.entry.laid.image.now) }
    {
        self.laid.body(1)
    }

    #[tactic(auto, using(crate::specs::GoodLayoutLaws::three_lines, crate::specs::ReadingLaws::third_body))]
    pub(crate) fn temperature_set(self) -> &'a [u8]
        ensures { result.now ≡ body_in 3 (sections self.entry.laid.image.now) }
    {
        self.laid.body(2)
    }

    // The line of a kind that need not be there: it stands after the first three.
    fn line_of_kind(self, kind: u8) -> Option<usize>
        requires { 3 < kind }
        ensures { MatchOption result (HasNoLine kind self.entry.laid.image.now) (λ i. IsLineOf kind self.entry.laid.image.now i) }
    {
        for i in FIRST_KINDS..self.laid.line_count() {
            if self.laid.line(i).kind == kind {
                return Some(i);
            }
        }
        None
    }

    pub(crate) fn trim(self) -> Option<Trim>
        ensures { result ≡ trimming_of (body_of 4 (sections self.entry.laid.image.now)) }
    {
        let i = self.line_of_kind(4)?;
        Some(bodies::read_trim(self.laid.body(i)))
    }
}
